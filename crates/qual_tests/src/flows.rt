//! What flows to what, and in which order the constraints come.

use crate::rows::check_lists;
use std::rt::HostRuntime;
use std::test::Fail;

/// Each source flows to the variable or the left side that it is stored in.
#[test]
fn left_sides(rt: HostRuntime) -> Result<(), Fail> {
    check_lists(
        &rt,
        rt.alloc(),
        &[
            (
                "private long k; int main(){ long x = k; private long y = x; long z = 1; char *p = 0; long a = a; \
                return 0; }",
                "priv<=?0@37 ?0<=priv@57 ?4<=?4@94",
            ),
            (
                "private char *p; int main(){ char *q = p; return 0; }",
                "pub<=?0@39 priv<=?1@39 ?1<=priv@39",
            ),
            (
                "struct S { long m; }; long g; struct S s; struct S *q; long a[2]; long *p; long f(private long b){ \
                long x; g = x; s.m = x; q->m = x; a[0] = x; p[1] = x; *p = x; b = x; return 0; }",
                "?0<=pub@111 ?0<=pub@120 pub<=pub@123 ?0<=pub@130 ?0<=pub@140 pub<=pub@143 ?0<=pub@150 pub<=pub@154 \
                ?0<=pub@158 ?0<=priv@165",
            ),
            (
                "long i; private long j; private char a[4]; int main(){ a[i] = a[j]; return 0; }",
                "pub<=pub@57 priv<=pub@64 priv<=priv@62",
            ),
        ],
    )
}

/// Each source flows to the parameter or the result that it is passed to.
#[test]
fn parameters_and_results(rt: HostRuntime) -> Result<(), Fail> {
    check_lists(
        &rt,
        rt.alloc(),
        &[
            (
                "private long k; long f(long a, private long b){ return 0; } int main(){ long x; f(k, k); f(x, x); \
                f(k + x, 1); return 0; }",
                "priv<=pub@82 priv<=priv@85 ?0<=pub@91 ?0<=priv@94 priv<=pub@100 ?0<=pub@104",
            ),
            (
                "long f(long a, private long b){ return 0; } int main(){ long x; f(f(x, x), x); return 0; }",
                "?0<=pub@68 ?0<=priv@71 pub<=pub@66 ?0<=priv@75",
            ),
            (
                "int main(){ long x; priv_put(x); exit(x); pub_out(pub_alloc(x), x); return 0; }",
                "?0<=priv@29 ?0<=pub@38 ?0<=pub@60 pub<=pub@50 ?0<=pub@64 pub<=pub@50 pub<=pub@50",
            ),
            (
                "int (*f)(char *, long, private char *); int main(){ char *p; long x; char *q; f(p, x, q); return 0; \
                }",
                "?0<=pub@80 ?2<=pub@83 ?3<=pub@86 ?1<=pub@80 pub<=?1@80 ?4<=priv@86 priv<=?4@86 pub<=pub@78",
            ),
            (
                "long f(long a, private long b){ if (a) return b; return a + b; }",
                "priv<=pub@46 pub<=pub@36 pub<=pub@56 priv<=pub@60",
            ),
            (
                "private long f(long a){ return a; } void g(void){ return; }",
                "pub<=priv@31",
            ),
            (
                "private char *f(char *p){ return p; } char *g(void){ return 0; } char *h(void){ return \"a\"; }",
                "pub<=pub@33 pub<=priv@33 priv<=pub@33 pub<=pub@87 pub<=pub@87",
            ),
        ],
    )
}

/// The constraints of a node's parts come before its own. Its own are those of what flows, then those of pointers, then
/// those of what must be public. In a call each of the three goes over all arguments.
#[test]
fn one_node(rt: HostRuntime) -> Result<(), Fail> {
    check_lists(
        &rt,
        rt.alloc(),
        &[
            (
                "private long c; char *p; private char *q; int main(){ char *r; r = c ? p : q; return 0; }",
                "pub<=priv@71 priv<=pub@71 priv<=pub@67 pub<=?0@71 pub<=?0@75 pub<=?1@67 ?1<=pub@67",
            ),
            (
                "struct S { int (*f)(char *, long); }; struct S *s; char *p; private long i; int main(){ \
                s->f(p + i, *p); return 0; }",
                "pub<=pub@88 pub<=pub@101 pub<=pub@93 priv<=pub@97 pub<=pub@100 pub<=pub@93 pub<=pub@93 pub<=pub@88",
            ),
            (
                "char *p; long i; int main(){ pub_out(p + i, *p); return 0; }",
                "pub<=pub@45 pub<=pub@37 pub<=pub@41 pub<=pub@44 pub<=pub@37 pub<=pub@37",
            ),
            (
                "private long a; long b; int main(){ long x; x = a / b ? a : b; return 0; }",
                "priv<=pub@48 pub<=pub@52 priv<=pub@48 pub<=pub@52 priv<=?0@56 pub<=?0@60",
            ),
            (
                "char *p; char *q; private long i; int main(){ long x; x = p[q[i]]; return 0; }",
                "pub<=pub@60 priv<=pub@62 pub<=pub@58 pub<=pub@60 pub<=?0@58",
            ),
        ],
    )
}

/// Statements come in source order. A condition's own constraints come last, behind those of branches and bodies.
#[test]
fn statements(rt: HostRuntime) -> Result<(), Fail> {
    check_lists(
        &rt,
        rt.alloc(),
        &[
            (
                "private long k; long g; int main(){ long x; if (k) x = g; else x = k; x = g; return 0; }",
                "pub<=?0@55 priv<=?0@67 priv<=pub@48 pub<=?0@74",
            ),
            (
                "private long k; long g; int main(){ long x; if (k / g) x = g; return 0; }",
                "priv<=pub@48 pub<=pub@52 pub<=?0@59 priv<=pub@48 pub<=pub@52",
            ),
            (
                "private long k; long g; int main(){ long x; if (k) if (g) x = k; else x = g; return 0; }",
                "priv<=?0@62 pub<=?0@74 pub<=pub@55 priv<=pub@48",
            ),
            (
                "private long k; long g; int main(){ long x; while (k / g) { x = g; break; } return 0; }",
                "priv<=pub@51 pub<=pub@55 pub<=?0@64 priv<=pub@51 pub<=pub@55",
            ),
            (
                "private long k; long g; int main(){ long x; do x = g; while (k / g); return 0; }",
                "pub<=?0@51 priv<=pub@61 pub<=pub@65 priv<=pub@61 pub<=pub@65",
            ),
            (
                "private long k; long g; int main(){ long x; for (x = g; x / k; x = x + 1) x = g; return 0; }",
                "pub<=?0@53 ?0<=pub@56 priv<=pub@60 ?0<=?0@67 pub<=?0@78 ?0<=pub@56 priv<=pub@60",
            ),
            (
                "private long k; long g; int main(){ long x; for (;;) { x = g; break; } x = k; return 0; }",
                "pub<=?0@59 priv<=?0@75",
            ),
            (
                "int main(){ long x; { long y = x; { x = y; ; } x / 2; } return x; }",
                "?0<=?1@31 ?1<=?0@40 ?0<=pub@47 ?0<=pub@63",
            ),
        ],
    )
}
