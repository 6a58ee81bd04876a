ghost use Rattle.std.specs.Prelude.{◌≡◌, ◌<◌, ◌≤◌, length, IfOk};
ghost use Rattle.taint_flow.specs.Places.{StandInOrder, NextStands};

use crate::calls::callee;
use crate::flow::{Labels, label_code};
use crate::label::{
    Label, branches_on_private, divides_private, entry_label, has_private_address,
    leaves_rsp_private, left_by, passes_private, return_label, returns_private, stores_private,
};
use crate::places::item_numbers;
use code_sweep::{Item, Listing, Placed};
use cv_word::{NoMemory, Steps};
use std::alloc::Global;
use std::marker::Brand;
use std::sync::ledger::{Blank, Ledger};
use std::test::Fail;
use x64_decode::{AluOp, Cond, Instr, Mem, Reg, Seg, ShiftOp, Width};

/// The public or the private bytes at rbx.
fn memory(seg: Seg) -> Mem {
    Mem {
        seg,
        base: Reg::Rbx,
        disp: 0,
    }
}

/// A row of the instruction table: the instruction, and the labels before and behind it.
type Row = (Instr, u32, u32);

fn check_rows(rt: &impl std::process::Abort, rows: &[Row]) {
    for row in rows {
        let left = left_by(&row.0, Label { bits: row.1 });
        assert_eq!(rt; left.bits, row.2, "{:?}", row.0);
    }
}

// rax is bit 0, rcx 1, rdx 2, rbx 3, and the flags bit 16
#[test]
fn arithmetic_rows(rt: HostRuntime) {
    check_rows(
        &rt,
        &[
            (
                Instr::Mov {
                    wide: true,
                    dst: Reg::Rbx,
                    src: Reg::Rcx,
                },
                0x2,
                0xa,
            ),
            (
                Instr::Mov {
                    wide: false,
                    dst: Reg::Rcx,
                    src: Reg::Rbx,
                },
                0x2,
                0,
            ),
            (
                Instr::Alu {
                    op: AluOp::Add,
                    dst: Reg::Rbx,
                    src: Reg::Rcx,
                },
                0x2,
                0x1_000a,
            ),
            (
                Instr::Alu {
                    op: AluOp::Cmp,
                    dst: Reg::Rbx,
                    src: Reg::Rcx,
                },
                0x2,
                0x1_0002,
            ),
            (
                Instr::Alu {
                    op: AluOp::Xor,
                    dst: Reg::Rbx,
                    src: Reg::Rbx,
                },
                0x1_0002,
                0x2,
            ),
            (
                Instr::Test {
                    a: Reg::Rcx,
                    b: Reg::Rbx,
                },
                0x2,
                0x1_0002,
            ),
            (
                Instr::Imul {
                    dst: Reg::Rbx,
                    src: Reg::Rdx,
                },
                0x2,
                0x1_0002,
            ),
            (Instr::Not { r: Reg::Rcx }, 0x2, 0x2),
            (Instr::Neg { r: Reg::Rcx }, 0x2, 0x1_0002),
            (Instr::Idiv { r: Reg::Rcx }, 0x2, 0x1_0007),
            (Instr::Idiv { r: Reg::Rbx }, 0x2, 0x1_0002),
            (Instr::Cqo, 0x1, 0x5),
            (
                Instr::ShiftImm {
                    op: ShiftOp::Shl,
                    r: Reg::Rbx,
                    count: 3,
                },
                0x2,
                0x1_0002,
            ),
            (
                Instr::ShiftCl {
                    op: ShiftOp::Sar,
                    r: Reg::Rbx,
                },
                0x2,
                0x1_000a,
            ),
            (
                Instr::AluImm {
                    op: AluOp::Add,
                    dst: Reg::Rcx,
                    imm: 1,
                },
                0x2,
                0x1_0002,
            ),
        ],
    );
}

#[test]
fn other_rows(rt: HostRuntime) {
    check_rows(
        &rt,
        &[
            (
                Instr::Movsxd {
                    dst: Reg::Rbx,
                    src: Reg::Rcx,
                },
                0x2,
                0xa,
            ),
            (
                Instr::Movzx8 {
                    dst: Reg::Gpr8,
                    src: Reg::Rcx,
                },
                0x2,
                0x102,
            ),
            (
                Instr::Movsx8 {
                    dst: Reg::Gpr15,
                    src: Reg::Rcx,
                },
                0x2,
                0x8002,
            ),
            (
                Instr::Setcc {
                    cc: Cond::E,
                    r: Reg::Rbx,
                },
                0x1_0000,
                0x1_0008,
            ),
            (
                Instr::Setcc {
                    cc: Cond::E,
                    r: Reg::Rbx,
                },
                0x8,
                0x8,
            ),
            (
                Instr::Cmov {
                    cc: Cond::E,
                    dst: Reg::Rbx,
                    src: Reg::Rcx,
                },
                0x1_0000,
                0x1_0008,
            ),
            (
                Instr::MovImm32 {
                    dst: Reg::Rcx,
                    imm: 1,
                },
                0x2,
                0,
            ),
            (
                Instr::MovImm64 {
                    dst: Reg::Rcx,
                    imm: 1,
                },
                0x2,
                0,
            ),
            (
                Instr::MovImmS {
                    dst: Reg::Rcx,
                    imm: 1,
                },
                0x2,
                0,
            ),
            (
                Instr::Load {
                    wide: true,
                    dst: Reg::Rcx,
                    mem: memory(Seg::Fs),
                },
                0x2,
                0,
            ),
            (
                Instr::LoadZx8 {
                    dst: Reg::Rbx,
                    mem: memory(Seg::Gs),
                },
                0,
                0x8,
            ),
            (
                Instr::LoadSx8 {
                    dst: Reg::Rbx,
                    mem: memory(Seg::Gs),
                },
                0,
                0x8,
            ),
            (
                Instr::LoadSx32 {
                    dst: Reg::Rbx,
                    mem: memory(Seg::Fs),
                },
                0x8,
                0,
            ),
            (
                Instr::Store {
                    width: Width::B8,
                    mem: memory(Seg::Fs),
                    src: Reg::Rcx,
                },
                0x2,
                0x2,
            ),
            (
                Instr::Jcc {
                    cc: Cond::E,
                    rel: 2,
                },
                0x1_0002,
                0x1_0002,
            ),
            (Instr::Ud2, 0x1_0002, 0x1_0002),
        ],
    );
}

#[test]
fn words(rt: HostRuntime) {
    assert_eq!(rt; entry_label(0).bits, 0x1_ff29);
    assert_eq!(rt; entry_label(1).bits, 0x1_ffa9);
    assert_eq!(rt; entry_label(8).bits, 0x1_ff2b);
    assert_eq!(rt; entry_label(31).bits, 0x1_ffef);
    assert_eq!(rt; return_label(0).bits, 0x1_ffee);
    assert_eq!(rt; return_label(1).bits, 0x1_ffef);
}

#[test]
fn rules(rt: HostRuntime) {
    let load = Item::Plain(Instr::Load {
        wide: true,
        dst: Reg::Rsp,
        mem: memory(Seg::Gs),
    });
    let store = Item::Plain(Instr::Store {
        width: Width::B1,
        mem: memory(Seg::Fs),
        src: Reg::Rcx,
    });
    let jump = Item::Plain(Instr::Jcc {
        cc: Cond::L,
        rel: 0,
    });
    let division = Item::Plain(Instr::Idiv { r: Reg::Rcx });
    let unit = Item::ReturnUnit(0);
    let call = Item::CallUnit(Reg::Rbx, 0);
    let [rax, rcx, rbx, rsp] = [0x1, 0x2, 0x8, 0x10].map(|bits| Label { bits });
    let flags = Label { bits: 0x1_0000 };
    assert!(rt; has_private_address(&load, rbx) && !has_private_address(&load, rcx));
    assert!(rt; has_private_address(&unit, rsp) && !has_private_address(&unit, rbx));
    assert!(rt; has_private_address(&call, rbx) && !has_private_address(&call, rsp));
    assert!(rt; stores_private(&store, rcx) && !stores_private(&store, rbx));
    assert!(rt; branches_on_private(&jump, flags) && !branches_on_private(&jump, rcx));
    assert!(rt; divides_private(&division, rcx) && !divides_private(&division, rbx));
    assert!(rt; leaves_rsp_private(&load, rcx) && !leaves_rsp_private(&store, rcx));
    assert!(rt; leaves_rsp_private(&store, rsp) && !leaves_rsp_private(&unit, rsp));
    assert!(rt; returns_private(&unit, rax) && !returns_private(&Item::ReturnUnit(1), rax));
}

/// The bits of what is called, what may be private, and whether that is too much.
#[test]
fn arguments(rt: HostRuntime) {
    let cases: [(Option<u8>, u32, bool); 9] = [
        (None, 0x1_ffff, false),
        (Some(0x1f), 0x1_ffff, false),
        (Some(0x0e), 0x80, true),
        (Some(0x0d), 0x40, true),
        (Some(0x0b), 0x4, true),
        (Some(0x07), 0x2, true),
        (Some(0x0e), 0x46, false),
        (Some(0), 0x1_ff39, false),
        (Some(0), 0, false),
    ];
    for (called, bits, wanted) in cases {
        assert_eq!(rt;
            passes_private(called, Label { bits }),
            wanted,
            "{called:?} {bits}"
        );
    }
}

/// The least labels, with a counter that is read by nobody.
fn labels_of<L: Ledger>(
    alloc: Global,
    listing: &Listing<'_>,
    blank: Blank,
) -> Result<Labels, NoMemory>
    requires name { blank.name ≡ L.name }
    requires parts { blank.parts ≡ L.parts }
    requires some { 0 < blank.parts }
    requires order { StandInOrder listing.now.items.items listing.now.code.now }
    requires limit { length listing.now.code.now ≤ 4194304 }
    requires next { NextStands listing.now.items.items }
    ensures { IfOk result (λ labels. length labels ≡ length listing.now.items.items) }
{
    let mut steps = Steps::<L>::new(blank);
    label_code(alloc, listing, &mut steps)
}

/// A call at place 8, a return word behind it, UD2, and a procedure with bits 5 at place 23: what the call names.
#[test]
fn callees(rt: HostRuntime) -> Result<(), Fail> {
    let cases: [(i32, Option<u8>); 10] = [
        (18, Some(5)),
        (-5, Some(15)),
        (10, None),
        (17, None),
        (-0xf00d, Some(0x0e)),
        (-0xf00d + 16 * 6, Some(0x1f)),
        (-0xf00d + 16 * 12, Some(0)),
        (-0xf00d + 16 * 13, None),
        (-0xf00d + 1, None),
        (-0xf00d - 16, None),
    ];
    for (rel, wanted) in cases {
        let call = Placed {
            at: 8,
            len: 5,
            item: Item::Plain(Instr::Call { rel }),
        };
        let items = vec![in rt.alloc();
            Placed {
                at: 0,
                len: 8,
                item: Item::Call(15)
            },
            call,
            Placed {
                at: 13,
                len: 8,
                item: Item::Ret(0)
            },
            Placed {
                at: 21,
                len: 2,
                item: Item::Plain(Instr::Ud2)
            },
            Placed {
                at: 23,
                len: 8,
                item: Item::Call(5)
            },
            Placed {
                at: 31,
                len: 2,
                item: Item::Plain(Instr::Ud2)
            },
        ]?;
        let code = [0x90u8; 33];
        let listing = Listing { code: &code, items };
        let numbers = item_numbers(rt.alloc(), &listing)?;
        let called = callee(listing.items.as_slice(), &numbers, &call);
        assert_eq!(rt; called, wanted, "{rel}");
        let labels = labels_of::<Brand>(rt.alloc(), &listing, Blank::new(1))?;
        assert_eq!(rt; labels.get(1).bits, 0x1_ffef);
        assert_eq!(rt; labels.get(3).bits, 0x1_ffee);
    }
    Ok(())
}

/// `40b800000000 4881f800000000 0f8408000000 4889f8 e9ebffffff 0f0b` behind a call word: rax is set to 0, and in a loop
/// compared with 0 and then set to rdi.
fn check_loop(
    rt: &impl std::process::Abort,
    alloc: Global,
    bits: u8,
    expected: [u32; 7],
) -> Result<(), Fail> {
    let items = vec![in alloc;
        Placed {
            at: 0,
            len: 8,
            item: Item::Call(bits)
        },
        Placed {
            at: 8,
            len: 6,
            item: Item::Plain(Instr::MovImm32 {
                dst: Reg::Rax,
                imm: 0
            })
        },
        Placed {
            at: 14,
            len: 7,
            item: Item::Plain(Instr::AluImm {
                op: AluOp::Cmp,
                dst: Reg::Rax,
                imm: 0
            })
        },
        Placed {
            at: 21,
            len: 6,
            item: Item::Plain(Instr::Jcc {
                cc: Cond::E,
                rel: 8
            })
        },
        Placed {
            at: 27,
            len: 3,
            item: Item::Plain(Instr::Mov {
                wide: true,
                dst: Reg::Rax,
                src: Reg::Rdi
            })
        },
        Placed {
            at: 30,
            len: 5,
            item: Item::Plain(Instr::Jmp { rel: -21 })
        },
        Placed {
            at: 35,
            len: 2,
            item: Item::Plain(Instr::Ud2)
        },
    ]?;
    let code = [0x90u8; 37];
    let listing = Listing { code: &code, items };
    let numbers = item_numbers(alloc, &listing)?;
    assert_eq!(rt; numbers.at(35), Some(6));
    assert_eq!(rt; numbers.at(36), None);
    assert_eq!(rt; numbers.at(37), None);
    let labels = labels_of::<Brand>(alloc, &listing, Blank::new(1))?;
    assert_eq!(rt; labels.len(), 7);
    for (i, label) in expected.iter().enumerate() {
        assert_eq!(rt; labels.get(i).bits, *label, "item {i}");
    }
    Ok(())
}

#[test]
fn loops(rt: HostRuntime) -> Result<(), Fail> {
    check_loop(
        &rt,
        rt.alloc(),
        0,
        [0, 0x1_ff29, 0x1_ff28, 0xff28, 0xff28, 0xff28, 0xff28],
    )?;
    check_loop(
        &rt,
        rt.alloc(),
        1,
        [
            0, 0x1_ffa9, 0x1_ffa9, 0x1_ffa9, 0x1_ffa9, 0x1_ffa9, 0x1_ffa9,
        ],
    )
}
