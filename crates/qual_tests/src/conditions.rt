//! What must be public.

use crate::rows::check_lists;
use std::rt::HostRuntime;
use std::test::Fail;

/// Conditions are public, and so are both operands of `&&` and `||`.
#[test]
fn conditions(rt: HostRuntime) -> Result<(), Fail> {
    check_lists(
        &rt,
        rt.alloc(),
        &[
            (
                "private long k; int main(){ if (k) ; while (k) ; do ; while (k); for (; k; ) ; k ? 1 : 2; return 0; \
                }",
                "priv<=pub@32 priv<=pub@44 priv<=pub@61 priv<=pub@72 priv<=pub@79",
            ),
            (
                "private long k; long g; int main(){ if (k + g) ; while (g == k) ; return k < g ? 1 : 2; }",
                "priv<=pub@40 pub<=pub@44 pub<=pub@56 priv<=pub@61 priv<=pub@73 pub<=pub@77",
            ),
            (
                "char *private p; char a[2]; int main(){ if (p) ; if (a) ; if (!p) ; while (1) ; if (&p) ; return 0; \
                }",
                "priv<=pub@44 priv<=pub@63",
            ),
            (
                "private long k; int main(){ long x; if (priv_get()) ; while (x = k) ; if ((private long)1) ; \
                return 0; }",
                "priv<=pub@40 priv<=?0@65 ?0<=pub@61 priv<=pub@74",
            ),
            (
                "private long k; long g; int main(){ k && g; g || k; if (k && (g || k)) ; return 0; }",
                "priv<=pub@36 pub<=pub@41 pub<=pub@44 priv<=pub@49 pub<=pub@62 priv<=pub@67 priv<=pub@56",
            ),
            (
                "char *private p; char a[2]; private long k; int main(){ p && a; !k || k + 1; return 0; }",
                "priv<=pub@56 priv<=pub@65 priv<=pub@70",
            ),
        ],
    )
}

/// Dereferenced, indexed and called pointers are public, and so are indices and the operands of `/` and `%`.
#[test]
fn operands(rt: HostRuntime) -> Result<(), Fail> {
    check_lists(
        &rt,
        rt.alloc(),
        &[
            (
                "struct S { long m; }; char *private p; struct S *private q; char a[2]; private long i; int main(){ \
                *p; q->m; p[0]; p[i]; a[i]; &a[i]; &q->m; *(p + i); return 0; }",
                "priv<=pub@100 priv<=pub@103 priv<=pub@109 priv<=pub@115 priv<=pub@117 priv<=pub@123 priv<=pub@130 \
                priv<=pub@135 priv<=pub@143 priv<=pub@147",
            ),
            (
                "char *private p; char a[2]; int main(){ p; p + 1; p == 0; !p; &p; (long)p; *a; a[0]; &a; return 0; }",
                "",
            ),
            (
                "char *private f(void){ return 0; } char *p; int main(){ char *private q; *f(); *(q = p); \
                *(1 ? q : p); *(char *private)p; return 0; }",
                "priv<=pub@74 pub<=priv@85 pub<=?0@85 ?0<=pub@85 priv<=pub@81 ?0<=pub@95 pub<=?0@95 priv<=pub@95 \
                pub<=pub@99 pub<=?1@119 ?1<=pub@119 pub<=pub@119 priv<=pub@104",
            ),
            (
                "private long a; long b; int main(){ long x; a / b; b % a; (a + b) / 2; 2 % -a; a * b; a - b; \
                x = a / b; x = a % b; return 0; }",
                "priv<=pub@44 pub<=pub@48 pub<=pub@51 priv<=pub@55 priv<=pub@59 pub<=pub@63 priv<=pub@76 \
                priv<=pub@97 pub<=pub@101 priv<=?0@97 pub<=?0@101 priv<=pub@108 pub<=pub@112 priv<=?0@108 \
                pub<=?0@112",
            ),
            (
                "struct S { int (*f)(void); }; private struct S s; int (*private f)(void); int (*g)(void); \
                int h(void){ return 0; } int main(){ int (*k)(void); f(); g(); h(); s.f(); (1 ? f : g)(); (*&k)(); \
                (&k)[0](); ((int (*private)(void))0)(); return 0; }",
                "priv<=pub@143 pub<=pub@148 priv<=pub@158 pub<=pub@170 pub<=pub@170 priv<=pub@170 pub<=pub@174 \
                ?0<=pub@181 ?0<=pub@189 priv<=pub@201",
            ),
        ],
    )
}
