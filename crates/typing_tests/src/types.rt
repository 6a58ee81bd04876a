//! Types: what an object, a parameter, a member, an element and a pointee may be.

use crate::rows::check;
use std::rt::HostRuntime;
use std::test::Fail;

#[test]
fn k3(rt: HostRuntime) -> Result<(), Fail> {
    check(
        &rt,
        rt.alloc(),
        &[
            (3, "void @x;"),
            (3, "struct A { void @a; };"),
            (3, "struct A { struct A @a; };"),
            (0, "struct A { struct A *a; };"),
            (3, "struct A { struct A @a[2]; };"),
            (3, "struct A { long (*f)(int, @struct A); };"),
            (3, "int f(void @a){ return 0; }"),
            (3, "int f(int @a[3]){ return 0; }"),
            (3, "void *@p;"),
            (3, "void @a[2];"),
            (3, "int main(){ return sizeof(@void); }"),
            (3, "int main(){ return sizeof(@private void); }"),
            (3, "int main(){ return (long)(@void *)0; }"),
            (3, "int @a[0];"),
            (0, "char a[1048576];"),
            (3, "char @a[1048577];"),
            (0, "struct A { char a[1048576]; }; struct A b[64];"),
            (3, "struct A { char a[1048576]; }; struct A @b[65];"),
            (
                3,
                "struct A { long a[1048576]; }; struct @B { struct A a; struct A b; struct A c; struct A d; struct A e; struct A f; struct A g; struct A h; char x; };",
            ),
            (3, "void *@f(void){ return 0; }"),
            (3, "long (*f)(@void *);"),
            (3, "struct A { void *@a; };"),
            (3, "int f(void *@p){ return 0; }"),
            (3, "int main(){ void @x; return 0; }"),
            (3, "void *(*@f)(void);"),
            (3, "long (*f)(@void, int);"),
            (3, "int main(){ return sizeof(@void *); }"),
            (
                0,
                "void (*f)(void); int main(){ return sizeof(void (*)(void)); }",
            ),
            (0, "struct A { struct A *(*f)(struct A *); };"),
            (
                3,
                "struct A { char a[1048576]; }; struct B { struct A @a[65]; };",
            ),
            (
                0,
                "struct A { long a[1048576]; }; struct B { struct A a; struct A b; struct A c; struct A d; struct A e; struct A f; struct A g; struct A h; };",
            ),
            (
                3,
                "struct A { char x; long y; char z; }; struct B { struct A a[1048576]; }; struct B @b[3];",
            ),
            (
                0,
                "struct A { char x; long y; char z; }; struct B { struct A a[1048576]; }; struct B b[2];",
            ),
            (3, "void *@f(void);"),
        ],
    )
}

#[test]
fn k13(rt: HostRuntime) -> Result<(), Fail> {
    check(
        &rt,
        rt.alloc(),
        &[
            (13, "struct A { private int @a; };"),
            (13, "struct A { int *private @a; };"),
            (13, "struct A { private int @a[3]; };"),
            (13, "struct A { int (*private @f)(void); };"),
            (0, "struct A { private int *a; int *private *b; };"),
            (13, "struct A { int a; }; int f(struct A @s){ return 0; }"),
            (13, "struct A { int a; }; struct A @f(void){ return 0; }"),
            (13, "struct A { int a; }; int (*p)(@struct A);"),
            (13, "struct A { int a; }; struct A (*@p)(void);"),
            (
                13,
                "struct A { int a; }; int main(){ (@struct A (*)(void))0; return 0; }",
            ),
            (13, "struct A { struct A (*@f)(void); };"),
            (
                13,
                "struct A { int a; }; struct B { private struct A @a; };",
            ),
            (13, "struct A { int *private @a[2]; };"),
            (
                0,
                "struct A { private int *a[2]; private int (*f)(private int); };",
            ),
            (
                13,
                "struct A { int a; }; int main(){ return sizeof(@struct A (*)(void)); }",
            ),
            (
                13,
                "struct A { int a; }; int f(long (*g)(int, @struct A)){ return 0; }",
            ),
        ],
    )
}
