//! Names: declared twice, or not known.

use crate::rows::check;
use std::rt::HostRuntime;
use std::test::Fail;

#[test]
fn k1(rt: HostRuntime) -> Result<(), Fail> {
    check(
        &rt,
        rt.alloc(),
        &[
            (1, "int x; long @x; int main(){ return 0; }"),
            (
                1,
                "int x; int @x(void){ return 0; } int main(){ return 0; }",
            ),
            (
                1,
                "int x(void){ return 0; } int @x; int main(){ return 0; }",
            ),
            (1, "int f(void){ return 0; } int @f(void){ return 0; }"),
            (1, "int f(void); int @f(void); int f(void){ return 0; }"),
            (1, "int f(void); int f(void){ return 0; } int @f(void);"),
            (0, "int f(void); int f(void){ return 0; }"),
            (0, "int f(void){ return 0; } int f(void);"),
            (1, "struct A { int a; }; struct @A { int b; };"),
            (1, "struct A { int a; long @a; };"),
            (1, "int f(int a, int @a){ return 0; }"),
            (1, "int f(int a, int @a); int f(int a, int b){ return 0; }"),
            (1, "int f(int a){ int @a; return 0; }"),
            (0, "int f(int a){ { int a; } return 0; }"),
            (1, "int main(){ int a; long @a; return 0; }"),
            (0, "int exit; int main(){ return exit; }"),
            (
                0,
                "int release(void){ return 1; } int main(){ return release(); }",
            ),
            (0, "struct A { int A; }; int A;"),
            (1, "int f; int @f(void);"),
            (1, "int x; void @x;"),
            (1, "struct A { int a; private int @a; };"),
            (1, "int f(int a){ { int b; int @b; } return 0; }"),
            (0, "int main(){ { int a; } { int a; } return 0; }"),
            (
                0,
                "int f(int f){ return f; } int main(){ int exit; exit = f(1); return exit; }",
            ),
            (
                1,
                "int main(){ return f(1); } int f(int a){ return a; } int @f;",
            ),
            (
                7,
                "int f; int main(){ return @f(1); } int f(int a){ return 0; }",
            ),
            (11, "void @exit(int status);"),
            (11, "int main(){ return f(); } int @f(void);"),
        ],
    )
}

#[test]
fn k2(rt: HostRuntime) -> Result<(), Fail> {
    check(
        &rt,
        rt.alloc(),
        &[
            (2, "int main(){ return @y; }"),
            (2, "int main(){ return @x; } int x;"),
            (0, "int main(){ return f(); } int f(void){ return 1; }"),
            (2, "struct A { struct @B *b; }; struct B { int a; };"),
            (2, "int main(){ { int a; } return @a; }"),
            (0, "int main(){ int a = a; return a; }"),
            (
                2,
                "struct A { int a; }; struct A s; int main(){ return s.@b; }",
            ),
            (
                2,
                "struct A { int a; }; struct A s; int main(){ struct A *p; p = &s; return p->@b; }",
            ),
            (2, "int *p; int main(){ return p->@m; }"),
            (2, "int main(){ return *@y; }"),
            (2, "int main(){ return sizeof(struct @A); }"),
            (2, "int main(){ return (long)(struct @A *)0; }"),
            (2, "int main(){ int a = @b, b; return a; }"),
            (0, "int main(){ int a = 1, b = a; return b; }"),
            (
                2,
                "int f(struct @B *b); struct B { int a; }; int f(struct B *b){ return 0; }",
            ),
            (
                2,
                "int main(){ return sizeof(struct @B *); } struct B { int a; };",
            ),
            (
                2,
                "int main(){ return g()->@a; } struct A { int a; }; struct A *g(void){ return 0; }",
            ),
            (2, "int a[2]; int main(){ return a->@m; }"),
        ],
    )
}
