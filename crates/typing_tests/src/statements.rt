//! Statements that leave a function or a loop, and which of several rules is told.

use crate::rows::check;
use std::rt::HostRuntime;
use std::test::Fail;

#[test]
fn k8_and_k9(rt: HostRuntime) -> Result<(), Fail> {
    check(
        &rt,
        rt.alloc(),
        &[
            (8, "void f(void){ @return 1; }"),
            (8, "void f(void){ @return y; }"),
            (8, "int f(void){ @return; }"),
            (0, "void f(void){ return; }"),
            (9, "int main(){ @break; return 0; }"),
            (9, "int main(){ if (1) @continue; return 0; }"),
            (
                0,
                "int main(){ while (1) { if (1) break; else continue; } do break; while (1); for (;;) continue; return 0; }",
            ),
            (8, "void f(void){ @return f(); }"),
            (9, "int main(){ while (1) ; @break; return 0; }"),
            (9, "int main(){ for (;;) { } { @continue; } return 0; }"),
        ],
    )
}

#[test]
fn least_places(rt: HostRuntime) -> Result<(), Fail> {
    check(
        &rt,
        rt.alloc(),
        &[
            (2, "int main(){ return @y + z; }"),
            (6, "int *f(void){ return @1; } int main(){ return y; }"),
            (8, "void f(void){ @return y; }"),
            (12, "int @a = y;"),
        ],
    )
}
