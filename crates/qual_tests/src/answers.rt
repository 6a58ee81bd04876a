//! What is solved for.

use crate::rows::{check_answers, check_lists};
use std::rt::HostRuntime;
use std::test::Fail;

/// The least assignment, as the line of each local.
#[test]
fn least_assignments(rt: HostRuntime) -> Result<(), Fail> {
    check_answers(
        &rt,
        rt.alloc(),
        &[
            (
                "int main(){ private long k = priv_get(); long x; x = k; priv_put(x); return 0; }",
                "main.k: private long\nmain.x: private long\n",
            ),
            (
                "private char *p; int main(){ char *q; q = p; return 0; }",
                "main.q: private char *\n",
            ),
            (
                "int f(int a,int b,int c,int d,int e){ return 0; } int main(){ return 0; }",
                "",
            ),
            (
                "int main(){ char b[4]; char *p; p = b; priv_in(p, 4); return 0; }",
                "main.b: private char [4]\nmain.p: private char *\n",
            ),
            (
                "private long k; int main(){ long a; long b; a = k; b = 1; if (b) return 1; return 0; }",
                "main.a: private long\nmain.b: long\n",
            ),
            (
                "struct S { long m; long n; }; private long k; int main(){ struct S s; long x; s.m = k; x = s.n; \
                return 0; }",
                "main.s: private struct S\nmain.x: private long\n",
            ),
            (
                "private char *p; int main(){ char *q; long *r; q = (char *)(long)p; r = (long *)p; return 0; }",
                "main.q: char *\nmain.r: private long *\n",
            ),
            (
                "private long f(long a){ long x; x = a; return x; } int main(){ long y; y = f(1); return 0; }",
                "f.x: long\nmain.y: private long\n",
            ),
        ],
    )
}

/// The first constraint that must break, and the shortest chain that leads to it. Of the shortest ones it is the first in
/// the order of the list. A chain may pass through the constant public.
#[test]
fn leaks(rt: HostRuntime) -> Result<(), Fail> {
    check_answers(
        &rt,
        rt.alloc(),
        &[
            (
                "int main(){ private long k = priv_get(); long x; x = k; return x; }",
                "leak at 63 chain 53 63",
            ),
            (
                "private char k; int main(){ if (k) return 1; return 0; }",
                "leak at 32 chain 32",
            ),
            (
                "private long k; int main(){ long x; x = k; x = k; return x; }",
                "leak at 57 chain 40 57",
            ),
            (
                "private long k; int main(){ long x; long y; y = k; x = y; x = k; return x; }",
                "leak at 72 chain 62 72",
            ),
            (
                "private long k; int main(){ long x; if (x) ; x = k; return x; }",
                "leak at 40 chain 49 40",
            ),
            (
                "private long k; long g; int main(){ long a; long b; long c; a = k; b = a; c = b; c = g; if (c) ; \
                if (k) ; return 0; }",
                "leak at 92 chain 101 85 92",
            ),
            (
                "private char *p; int main(){ char *q; q = p; pub_out(q, 1); return 0; }",
                "leak at 53 chain 42 53",
            ),
            (
                "private char *p; char *q; int main(){ q = p; return 0; }",
                "leak at 42 chain 42",
            ),
            (
                "int h(private int v){ return 0; } int main(){ int (*f)(int); f = h; return 0; }",
                "leak at 65 chain 65",
            ),
            (
                "private long f(void){ return 0; } long g(long a){ return a; } int main(){ return g(f()); }",
                "leak at 83 chain 83",
            ),
        ],
    )
}

/// Checks a stored password against a typed one, and releases one byte that says whether they are equal.
static PASSWORD: &str = "private char stored[16];
char name[16];
char answer[1];
private long same(private char *a, private char *b, long n) {
  long ok; long i;
  ok = 1;
  for (i = 0; i < n; i = i + 1) ok = ok & (a[i] == b[i]);
  return ok;
}
int main(void) {
  private char typed[16]; private char res[1]; long got;
  priv_in(stored, 16);
  priv_in(typed, 16);
  got = pub_in(name, 16);
  res[0] = same(stored, typed, 16) + 48;
  release(res, answer, 1, 0);
  pub_out(name, got);
  pub_out(answer, 1);
  return 0;
}
";

/// A line has the constraints of one statement. The loop has three lines: for its step, its body and its condition.
static PASSWORD_LIST: &str = "\
    ?1<=?1@172 \
    pub<=pub@190 ?1<=pub@192 pub<=pub@198 ?1<=pub@200 ?0<=?0@184 priv<=?0@190 priv<=?0@198 \
    ?1<=pub@161 pub<=pub@165 \
    ?0<=priv@214 \
    priv<=priv@304 priv<=priv@304 \
    priv<=priv@327 priv<=priv@327 \
    pub<=pub@354 pub<=pub@354 pub<=?2@347 \
    priv<=priv@381 priv<=priv@381 priv<=priv@389 priv<=priv@389 priv<=priv@376 \
    priv<=priv@416 priv<=priv@416 pub<=pub@421 pub<=pub@421 \
    ?2<=pub@452 pub<=pub@446 pub<=pub@446 \
    pub<=pub@468 pub<=pub@468";

/// The password is compared without a leak.
#[test]
fn password(rt: HostRuntime) -> Result<(), Fail> {
    check_lists(&rt, rt.alloc(), &[(PASSWORD, PASSWORD_LIST)])?;
    check_answers(
        &rt,
        rt.alloc(),
        &[(
            PASSWORD,
            "same.ok: private long\nsame.i: long\nmain.typed: private char [16]\nmain.res: private char [1]\nmain.got: long\n",
        )],
    )
}
