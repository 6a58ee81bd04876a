//! Values and calls: what fits, and what may be called.

use crate::rows::check;
use std::rt::HostRuntime;
use std::test::Fail;

#[test]
fn k6(rt: HostRuntime) -> Result<(), Fail> {
    check(
        &rt,
        rt.alloc(),
        &[
            (6, "int *p; int main(){ p = @1; return 0; }"),
            (0, "int *p; int main(){ p = 0; p = (0); return 0; }"),
            (6, "int *p; int main(){ p = @'\\0'; return 0; }"),
            (6, "int *p; long *q; int main(){ p = @q; return 0; }"),
            (0, "int *p; private int *q; int main(){ p = q; return 0; }"),
            (6, "int main(){ int *p = @1; return 0; }"),
            (6, "int f(int *p){ return 0; } int main(){ return f(@1); }"),
            (6, "int *p; int main(){ return @p; }"),
            (
                6,
                "int *p; int main(){ return 1 ? 2 : (long)(1 ? p : @3); }",
            ),
            (
                0,
                "int *p; int main(){ p = 1 ? p : 0; p = 1 ? 0 : p; return 0; }",
            ),
            (
                6,
                "int f(void){ return 0; } int main(){ 1 ? f : @f; return 0; }",
            ),
            (6, "void f(void){ } int main(){ 1 ? f() : @f(); return 0; }"),
            (
                0,
                "int f(void){ return 0; } int (*p)(void); int main(){ p = f; p = 1 ? f : p; return p(); }",
            ),
            (
                6,
                "int f(void){ return 0; } long (*p)(void); int main(){ p = @f; return 0; }",
            ),
            (6, "int f(void){ return 0; } int main(){ return (long)@f; }"),
            (6, "int main(){ (void)@1; return 0; }"),
            (
                6,
                "struct A { int a; }; int main(){ (struct A)@1; return 0; }",
            ),
            (6, "int a[2] = @5;"),
            (6, "struct A { int a; }; struct A s = @5;"),
            (6, "int *p = @5;"),
            (0, "int *p = 0; char c = 'a'; int i = -5; long l = -'a';"),
            (
                0,
                "int f(int *p){ return 0; } int main(){ return f(0) + f((0)); }",
            ),
            (6, "int *p; int main(){ p = (@1); return 0; }"),
            (6, "int *p; int main(){ p = @-0; return 0; }"),
            (6, "int *p; int main(){ p = @1 ? 0 : 0; return 0; }"),
            (6, "int *p; long *q; int main(){ 1 ? p : @q; return 0; }"),
            (
                6,
                "int f(void){ return 0; } int main(){ 1 ? 0 : @f; return 0; }",
            ),
            (
                6,
                "int f(void){ return 0; } int main(){ 1 ? f : @0; return 0; }",
            ),
            (
                6,
                "struct A { int a; }; struct A s; int main(){ 1 ? s : @s; return 0; }",
            ),
            (
                6,
                "struct A { int a; }; struct A s; int main(){ return (long)@s; }",
            ),
            (6, "void f(void){ } int main(){ return (long)@f(); }"),
            (6, "void f(void){ } int main(){ int x = @f(); return x; }"),
            (
                6,
                "int f(void){ return 0; } int main(){ return (long)(char *)@f; }",
            ),
            (
                0,
                "int f(void){ return 0; } int main(){ return (long)(int (*)(void))f; }",
            ),
            (6, "int f(void){ return 0; } int main(){ return @f; }"),
            (6, "int main(){ return pub_out(@1, 1); }"),
            (0, "private char a[2]; int main(){ return pub_out(a, 2); }"),
            (
                0,
                "long h(private int a){ return 0; } int g(long (*f)(int)){ return 0; } int main(){ return g(h); }",
            ),
            (
                6,
                "int g(long (*f)(int)){ return 0; } int h(int a){ return a; } int main(){ return g(@h); }",
            ),
            (6, "int *p = @-0;"),
            (6, "int *p = @'\\0';"),
            (6, "char a[2] = @'a';"),
            (6, "int a[2] = @0;"),
            (6, "int a[2] = @-5;"),
            (6, "int (*p)(void) = @1;"),
            (0, "int (*p)(void) = 0;"),
        ],
    )
}

#[test]
fn k7(rt: HostRuntime) -> Result<(), Fail> {
    check(
        &rt,
        rt.alloc(),
        &[
            (7, "int x; int main(){ return @x(); }"),
            (7, "int main(){ return @1(); }"),
            (7, "int f(int a){ return 0; } int main(){ return @f(); }"),
            (
                7,
                "int f(int a){ return 0; } int main(){ return @f(1, 2); }",
            ),
            (7, "int main(){ return (long)(1 + @exit); }"),
            (7, "int main(){ @exit; return 0; }"),
            (0, "int main(){ (exit)(1); return 0; }"),
            (0, "int (*p)(int); int main(){ return p(1); }"),
            (7, "int *p; int main(){ return @p(1); }"),
            (
                7,
                "int f(int a){ return 0; } int main(){ return @f(1, y); }",
            ),
            (7, "int f(int a){ return 0; } int main(){ return @(f)(); }"),
            (7, "int x; int main(){ return (@x)(); }"),
            (7, "int x; int main(){ return @x(y); }"),
            (7, "void f(void){ } int main(){ @f()(); return 0; }"),
            (7, "int (*p)(int); int main(){ return @p(); }"),
            (7, "int (*p)(void); int main(){ return (@&p)(); }"),
            (
                0,
                "int (*p)(void); int main(){ return (&p)[0]() + (1 ? p : p)() + (*&p)(); }",
            ),
            (
                0,
                "struct A { long (*f)(int); }; struct A s; int main(){ struct A *p; p = &s; return s.f(1) + p->f(2); }",
            ),
            (7, "int main(){ @exit(); return 0; }"),
            (7, "int main(){ return pub_out(@exit, 1); }"),
            (7, "int main(){ (@exit); return 0; }"),
            (7, "int main(){ (1 ? @exit : exit)(1); return 0; }"),
            (7, "int main(){ return (long)*@exit; }"),
            (0, "int main(){ ((exit))(1); return 0; }"),
            (7, "int main(){ int exit; return @exit(1); }"),
        ],
    )
}
