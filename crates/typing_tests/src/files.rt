//! Prototypes, and what initialises an object.

use crate::rows::check;
use std::rt::HostRuntime;
use std::test::Fail;

#[test]
fn k11(rt: HostRuntime) -> Result<(), Fail> {
    check(
        &rt,
        rt.alloc(),
        &[
            (11, "int @f(void); int main(){ return 0; }"),
            (11, "int @f(int a); int f(long a){ return 0; }"),
            (11, "int @f(private int a); int f(int a){ return 0; }"),
            (11, "private int @f(void); int f(void){ return 0; }"),
            (11, "int f(void){ return 0; } long @f(void);"),
            (
                0,
                "int f(int a, char *p); int f(int b, char *q){ return 0; }",
            ),
            (11, "int @f(void); int f; int main(){ return 0; }"),
            (11, "int @f(private char *p); int f(char *p){ return 0; }"),
            (11, "int @f(int *private p); int f(int *p){ return 0; }"),
            (
                11,
                "int @f(long (*g)(private int)); int f(long (*g)(int)){ return 0; }",
            ),
            (11, "int @f(int a); int f(int a, int b){ return 0; }"),
            (11, "struct A { int a; }; int @f(struct A s);"),
        ],
    )
}

#[test]
fn k12(rt: HostRuntime) -> Result<(), Fail> {
    check(
        &rt,
        rt.alloc(),
        &[
            (12, "int x = 1; int @y = x;"),
            (12, "int @y = 1 + 1;"),
            (12, "int @y = (5);"),
            (12, "int @y = -(5);"),
            (12, "int @y = sizeof(int);"),
            (12, "int @y = ~1;"),
            (12, "char *@p = \"a\";"),
            (12, "char @a[3] = \"abc\";"),
            (0, "char a[4] = \"abc\"; private char b[9] = \"\";"),
            (12, "int @a[4] = \"abc\";"),
            (12, "int f(void){ return 0; } int (*@p)(void) = f;"),
            (12, "int main(){ int @a[2] = 5; return 0; }"),
            (
                12,
                "struct A { int a; }; int main(){ struct A @s = 5; return 0; }",
            ),
            (12, "int @a = y;"),
            (12, "int *@p = (0);"),
            (12, "int @x = \"a\";"),
            (12, "int @y = - -5;"),
            (12, "int @y = !0;"),
            (12, "char @a[4] = (\"abc\");"),
            (12, "struct A { int a; }; struct A @s = \"a\";"),
            (12, "int main(){ char @a[3] = \"ab\"; return 0; }"),
            (12, "int main(){ int @a[2] = (1 + y); return 0; }"),
            (12, "int @x = exit;"),
            (0, "private int private x; int main(){ return 0; }"),
        ],
    )
}
