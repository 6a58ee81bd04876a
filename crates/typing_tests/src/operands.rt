//! Operands: integers, pointers and places.

use crate::rows::check;
use std::rt::HostRuntime;
use std::test::Fail;

#[test]
fn k4(rt: HostRuntime) -> Result<(), Fail> {
    check(
        &rt,
        rt.alloc(),
        &[
            (
                4,
                "struct A { int a; }; struct A s; int main(){ return @s * 2; }",
            ),
            (
                4,
                "struct A { int a; }; struct A s; int main(){ return 2 * @s; }",
            ),
            (4, "int *p; int main(){ return (long)(@p * 2); }"),
            (4, "int *p; int *q; int main(){ return (long)(@p + q); }"),
            (
                0,
                "int *p; int main(){ p = p + 1; p = 1 + p; p = p - 1; return 0; }",
            ),
            (4, "int *p; int main(){ p = 1 - @p; return 0; }"),
            (4, "int *p; int *q; int main(){ return @p - q; }"),
            (4, "long (*f)(void); int main(){ f = @f + 1; return 0; }"),
            (0, "int *p; int *q; int main(){ return p < q; }"),
            (0, "int *p; int main(){ return p == 0; }"),
            (0, "int *p; int main(){ return 0 < p; }"),
            (4, "int *p; long *q; int main(){ return @p == q; }"),
            (4, "int *p; int main(){ return @p == 1; }"),
            (4, "int *p; int main(){ return @p == '\\0'; }"),
            (0, "int *private p; private int *q; int main(){ return 0; }"),
            (
                4,
                "struct A { int a; }; struct A s; int main(){ if (@s) return 1; return 0; }",
            ),
            (
                4,
                "struct A { int a; }; struct A s; int main(){ while (@s) ; return 0; }",
            ),
            (
                4,
                "struct A { int a; }; struct A s; int main(){ do ; while (@s); return 0; }",
            ),
            (
                4,
                "struct A { int a; }; struct A s; int main(){ for (;@s;) ; return 0; }",
            ),
            (
                4,
                "struct A { int a; }; struct A s; int main(){ return @s ? 1 : 2; }",
            ),
            (
                4,
                "struct A { int a; }; struct A s; int main(){ return 1 && @s; }",
            ),
            (
                0,
                "int a[3]; int main(){ if (a) return !a; return a && 1; }",
            ),
            (4, "int a[3]; int *p; int main(){ return a[@p]; }"),
            (4, "int *p; int main(){ return -@p; }"),
            (4, "int *p; int main(){ return ~@p; }"),
            (4, "int main(){ return @main + 1; }"),
            (4, "int main(){ if (@main) return 1; return 0; }"),
            (4, "void f(void){ } int main(){ return @f() + 1; }"),
            (
                4,
                "struct A { int a; }; struct A s; int main(){ return @s * y; }",
            ),
            (2, "int *p; int main(){ return (long)(p + @y); }"),
            (
                4,
                "struct A { int a; }; struct A s; int main(){ return (@s) * 2; }",
            ),
            (
                0,
                "long (*f)(void); long (*g)(void); int main(){ return f == g || f < g || !f || f == 0; }",
            ),
            (
                0,
                "char a[2]; private char *p; int main(){ return a == p; }",
            ),
            (
                4,
                "int a[2]; int b[2]; int main(){ return (long)(@a + b); }",
            ),
            (4, "long (*f)(void); int main(){ return 1 + @f == 0; }"),
            (4, "int f(void){ return 0; } int main(){ return !@f; }"),
            (
                4,
                "int f(void){ return 0; } int main(){ return @f ? 1 : 2; }",
            ),
            (
                4,
                "int f(void){ return 0; } int a[2]; int main(){ return a[@f]; }",
            ),
            (4, "int f(void){ return 0; } int main(){ return 0 == @f; }"),
            (
                4,
                "void v(void){ } int main(){ for (; @v(); ) ; return 0; }",
            ),
            (4, "int *p; int main(){ return (long)(@p * y); }"),
            (4, "long (*f)(void); int main(){ return (long)(@f + y); }"),
            (2, "int *p; int main(){ return p < @y; }"),
            (2, "int *p; int main(){ return (long)(p - @y); }"),
            (
                4,
                "struct A { int a; }; struct A s; int main(){ return @s && y; }",
            ),
            (
                4,
                "struct A { int a; }; struct A s; int main(){ return @s ? y : 1; }",
            ),
        ],
    )
}

#[test]
fn k5(rt: HostRuntime) -> Result<(), Fail> {
    check(
        &rt,
        rt.alloc(),
        &[
            (5, "int a[2]; int main(){ @a = 0; return 0; }"),
            (
                5,
                "struct A { int a; }; struct A s; int main(){ @s = s; return 0; }",
            ),
            (
                5,
                "int f(void){ return 0; } int main(){ @f() = 1; return 0; }",
            ),
            (5, "int main(){ return (long)&@main; }"),
            (5, "int main(){ return (long)&@exit; }"),
            (5, "int main(){ return (long)&@\"a\"; }"),
            (5, "int a; int main(){ return (long)&(@a + 1); }"),
            (
                0,
                "int a[2]; int main(){ int *p; p = &a; p = &a[1]; *p = 3; return 0; }",
            ),
            (
                5,
                "int f(int a){ return 0; } int main(){ @f(y) = 1; return 0; }",
            ),
            (5, "int main(){ @main = 0; return 0; }"),
            (5, "int main(){ @exit = 1; return 0; }"),
            (5, "int x; int main(){ (@(long)x) = 1; return 0; }"),
            (5, "int main(){ @(y)() = 1; return 0; }"),
            (5, "int main(){ return (long)&(@1 + y); }"),
            (5, "int a[2]; int main(){ @a = y; return 0; }"),
            (
                5,
                "struct A { int a[2]; }; struct A s; int main(){ @s.a = 0; return 0; }",
            ),
            (
                0,
                "struct A { int a[2]; }; struct A s; int main(){ int *p; p = &s.a; p = s.a; return (long)&(p); }",
            ),
        ],
    )
}

#[test]
fn k10(rt: HostRuntime) -> Result<(), Fail> {
    check(
        &rt,
        rt.alloc(),
        &[
            (10, "int x; int main(){ return @*x; }"),
            (10, "int x; int main(){ return @x[0]; }"),
            (10, "int x; int main(){ return @x->m; }"),
            (10, "int (*f)(void); int main(){ return (long)@*f; }"),
            (10, "int (*f)(void); int main(){ return (long)@f[0]; }"),
            (10, "int (*f)(void); int main(){ return (long)@f->m; }"),
            (10, "int main(){ return (long)@*main; }"),
            (
                10,
                "struct A { int a; }; struct A *p; int main(){ return @p.a; }",
            ),
            (10, "int x; int main(){ return @x.a; }"),
            (
                0,
                "struct A { int a; }; struct A s[2]; int main(){ return s->a + s[1].a + (*s).a; }",
            ),
            (10, "int x; int main(){ return @(x)[0]; }"),
            (10, "int x; int *p; int main(){ return @x[p]; }"),
            (10, "int x; int main(){ return @x[y]; }"),
            (10, "int (*p)(void); int main(){ return (@*p)(); }"),
            (10, "int main(){ return (long)@main[0]; }"),
            (10, "int main(){ return (long)@main->m; }"),
            (
                10,
                "struct A { int a; }; struct A s[2]; int main(){ return @s.a; }",
            ),
            (
                0,
                "struct A { long a; }; int main(){ struct A s; s; return 0; }",
            ),
        ],
    )
}
