//! Lines by hand: GNU as and objdump read the same bytes as the same instructions.

use super::*;
use code_sweep::{Item, Listing, Placed, sweep};
use std::alloc::Global;
use std::process::Abort;
use std::test::Fail;
use x64_decode::Instr;

const PREFIX: [u8; 6] = [0xa1, 0xa2, 0xa3, 0xa4, 0xa5, 0xa6];

/// The text of the listing of a code.
fn listed(rt: &impl Abort, alloc: Global, code: &[u8]) -> Result<String, Fail> {
    assert!(rt; code.len() <= 4_194_304);
    let listing = sweep(alloc, code, PREFIX)?;
    listing_law();
    Ok(listing_text(alloc, &listing)?)
}

/// The bytes of an item, and its line at the first place.
static LINES: [(&[u8], &str); 77] = [
    (
        b"\x00\x11\xa1\xa2\xa3\xa4\xa5\xa6",
        "00010000: 0011a1a2a3a4a5a6 callword 00\n",
    ),
    (
        b"\x1f\x11\xa1\xa2\xa3\xa4\xa5\xa6",
        "00010000: 1f11a1a2a3a4a5a6 callword 1f\n",
    ),
    (
        b"\x00\x22\xa1\xa2\xa3\xa4\xa5\xa6",
        "00010000: 0022a1a2a3a4a5a6 retword 0\n",
    ),
    (
        b"\x01\x22\xa1\xa2\xa3\xa4\xa5\xa6",
        "00010000: 0122a1a2a3a4a5a6 retword 1\n",
    ),
    (
        b"\x64\x67\x44\x8b\x94\x24\x00\x00\x00\x00\x48\x81\xc4\x08\x00\x00\x00\x49\xbb\xff\xdd\x5e\x5d\x5c\x5b\x5a\x59\x49\xf7\xd3\x67\x4d\x3b\x9a\x00\x00\x00\x00\x0f\x84\x02\x00\x00\x00\x0f\x0b\x49\x81\xc2\x08\x00\x00\x00\x41\xff\xe2",
        "00010000: 6467448b9424000000004881c40800000049bbffdd5e5d5c5b5a5949f7d3674d3b9a000000000f84020000000f0b4981c20800000041ffe2 return-unit 0\n",
    ),
    (
        b"\x64\x67\x44\x8b\x94\x24\x00\x00\x00\x00\x48\x81\xc4\x08\x00\x00\x00\x49\xbb\xfe\xdd\x5e\x5d\x5c\x5b\x5a\x59\x49\xf7\xd3\x67\x4d\x3b\x9a\x00\x00\x00\x00\x0f\x84\x02\x00\x00\x00\x0f\x0b\x49\x81\xc2\x08\x00\x00\x00\x41\xff\xe2",
        "00010000: 6467448b9424000000004881c40800000049bbfedd5e5d5c5b5a5949f7d3674d3b9a000000000f84020000000f0b4981c20800000041ffe2 return-unit 1\n",
    ),
    (
        b"\x41\x89\xc2\x49\xbb\xe0\xee\x5e\x5d\x5c\x5b\x5a\x59\x49\xf7\xd3\x67\x4d\x3b\x9a\x00\x00\x00\x00\x0f\x84\x02\x00\x00\x00\x0f\x0b\x49\x81\xc2\x08\x00\x00\x00\x41\xff\xd2",
        "00010000: 4189c249bbe0ee5e5d5c5b5a5949f7d3674d3b9a000000000f84020000000f0b4981c20800000041ffd2 call-unit rax 1f\n",
    ),
    (
        b"\x45\x89\xca\x49\xbb\xff\xee\x5e\x5d\x5c\x5b\x5a\x59\x49\xf7\xd3\x67\x4d\x3b\x9a\x00\x00\x00\x00\x0f\x84\x02\x00\x00\x00\x0f\x0b\x49\x81\xc2\x08\x00\x00\x00\x41\xff\xd2",
        "00010000: 4589ca49bbffee5e5d5c5b5a5949f7d3674d3b9a000000000f84020000000f0b4981c20800000041ffd2 call-unit r9 00\n",
    ),
    (b"\x48\x89\xf8", "00010000: 4889f8 mov rax, rdi\n"),
    (b"\x45\x89\xf8", "00010000: 4589f8 mov32 r8, r15\n"),
    (b"\x48\x01\xc8", "00010000: 4801c8 add rax, rcx\n"),
    (b"\x48\x09\xda", "00010000: 4809da or rdx, rbx\n"),
    (b"\x48\x21\xec", "00010000: 4821ec and rsp, rbp\n"),
    (b"\x48\x29\xfe", "00010000: 4829fe sub rsi, rdi\n"),
    (b"\x4d\x31\xc8", "00010000: 4d31c8 xor r8, r9\n"),
    (b"\x4d\x39\xda", "00010000: 4d39da cmp r10, r11\n"),
    (b"\x4d\x85\xec", "00010000: 4d85ec test r12, r13\n"),
    (b"\x4d\x0f\xaf\xf7", "00010000: 4d0faff7 imul r14, r15\n"),
    (b"\x48\xf7\xd0", "00010000: 48f7d0 not rax\n"),
    (b"\x48\xf7\xd9", "00010000: 48f7d9 neg rcx\n"),
    (b"\x48\xf7\xfa", "00010000: 48f7fa idiv rdx\n"),
    (b"\x48\x99", "00010000: 4899 cqo\n"),
    (b"\x48\xc1\xe0\x01", "00010000: 48c1e001 shli rax, 1\n"),
    (b"\x49\xc1\xec\x3f", "00010000: 49c1ec3f shri r12, 63\n"),
    (b"\x48\xc1\xfb\x0a", "00010000: 48c1fb0a sari rbx, 10\n"),
    (b"\x48\xd3\xe4", "00010000: 48d3e4 shlc rsp\n"),
    (b"\x49\xd3\xed", "00010000: 49d3ed shrc r13\n"),
    (b"\x48\xd3\xfd", "00010000: 48d3fd sarc rbp\n"),
    (b"\x48\x63\xc1", "00010000: 4863c1 movsxd rax, rcx\n"),
    (b"\x48\x0f\xb6\xd3", "00010000: 480fb6d3 movzx8 rdx, rbx\n"),
    (b"\x48\x0f\xbe\xf7", "00010000: 480fbef7 movsx8 rsi, rdi\n"),
    (b"\x40\x0f\x90\xc0", "00010000: 400f90c0 setcco rax\n"),
    (b"\x40\x0f\x91\xc0", "00010000: 400f91c0 setccno rax\n"),
    (b"\x40\x0f\x92\xc0", "00010000: 400f92c0 setccb rax\n"),
    (b"\x40\x0f\x93\xc0", "00010000: 400f93c0 setccae rax\n"),
    (b"\x40\x0f\x94\xc0", "00010000: 400f94c0 setcce rax\n"),
    (b"\x40\x0f\x95\xc0", "00010000: 400f95c0 setccne rax\n"),
    (b"\x40\x0f\x96\xc0", "00010000: 400f96c0 setccbe rax\n"),
    (b"\x40\x0f\x97\xc0", "00010000: 400f97c0 setcca rax\n"),
    (b"\x40\x0f\x98\xc0", "00010000: 400f98c0 setccs rax\n"),
    (b"\x40\x0f\x99\xc0", "00010000: 400f99c0 setccns rax\n"),
    (b"\x40\x0f\x9c\xc0", "00010000: 400f9cc0 setccl rax\n"),
    (b"\x40\x0f\x9d\xc0", "00010000: 400f9dc0 setccge rax\n"),
    (b"\x40\x0f\x9e\xc0", "00010000: 400f9ec0 setccle rax\n"),
    (b"\x40\x0f\x9f\xc0", "00010000: 400f9fc0 setccg rax\n"),
    (b"\x4d\x0f\x4e\xc1", "00010000: 4d0f4ec1 cmovle r8, r9\n"),
    (b"\x4d\x0f\x44\xd3", "00010000: 4d0f44d3 cmove r10, r11\n"),
    (
        b"\x40\xb8\x00\x00\x00\x00",
        "00010000: 40b800000000 movimm32 rax, 0x0\n",
    ),
    (
        b"\x41\xbf\xff\xff\xff\xff",
        "00010000: 41bfffffffff movimm32 r15, 0xffffffff\n",
    ),
    (
        b"\x48\xb9\x00\x10\x00\x00\x00\x00\x00\x00",
        "00010000: 48b90010000000000000 movimm64 rcx, 0x1000\n",
    ),
    (
        b"\x49\xbe\x10\x32\x54\x76\x98\xba\xdc\xfe",
        "00010000: 49be1032547698badcfe movimm64 r14, 0xfedcba9876543210\n",
    ),
    (
        b"\x48\xc7\xc3\x07\x00\x00\x00",
        "00010000: 48c7c307000000 movimms rbx, 7\n",
    ),
    (
        b"\x48\xc7\xc6\x00\x00\x00\x80",
        "00010000: 48c7c600000080 movimms rsi, -2147483648\n",
    ),
    (
        b"\x48\x81\xc0\x08\x00\x00\x00",
        "00010000: 4881c008000000 addi rax, 8\n",
    ),
    (
        b"\x48\x81\xc9\xff\xff\xff\xff",
        "00010000: 4881c9ffffffff ori rcx, -1\n",
    ),
    (
        b"\x48\x81\xe2\xf0\xff\xff\xff",
        "00010000: 4881e2f0ffffff andi rdx, -16\n",
    ),
    (
        b"\x48\x81\xec\xff\xff\xff\x7f",
        "00010000: 4881ecffffff7f subi rsp, 2147483647\n",
    ),
    (
        b"\x49\x81\xf1\x0a\x00\x00\x00",
        "00010000: 4981f10a000000 xori r9, 10\n",
    ),
    (
        b"\x49\x81\xff\x00\x00\x00\x00",
        "00010000: 4981ff00000000 cmpi r15, 0\n",
    ),
    (
        b"\x64\x67\x49\x8b\x80\xfd\xff\xff\xff",
        "00010000: 6467498b80fdffffff load rax, fs:[r8-3]\n",
    ),
    (
        b"\x65\x67\x40\x8b\x8c\x24\x00\x00\x00\x00",
        "00010000: 6567408b8c2400000000 load32 rcx, gs:[rsp+0]\n",
    ),
    (
        b"\x64\x67\x49\x0f\xb6\x94\x24\xff\xff\xff\x7f",
        "00010000: 6467490fb69424ffffff7f loadzx8 rdx, fs:[r12+2147483647]\n",
    ),
    (
        b"\x65\x67\x4c\x0f\xbe\xad\x00\x00\x00\x80",
        "00010000: 65674c0fbead00000080 loadsx8 r13, gs:[rbp-2147483648]\n",
    ),
    (
        b"\x64\x67\x4c\x63\xb0\x10\x00\x00\x00",
        "00010000: 64674c63b010000000 loadsx32 r14, fs:[rax+16]\n",
    ),
    (
        b"\x64\x67\x48\x89\x87\x08\x00\x00\x00",
        "00010000: 646748898708000000 store fs:[rdi+8], rax\n",
    ),
    (
        b"\x65\x67\x45\x89\x9a\xff\xff\xff\xff",
        "00010000: 656745899affffffff store32 gs:[r10-1], r11\n",
    ),
    (
        b"\x64\x67\x41\x88\x99\x64\x00\x00\x00",
        "00010000: 646741889964000000 store8 fs:[r9+100], rbx\n",
    ),
    (
        b"\xe8\x00\x00\x00\x00",
        "00010000: e800000000 call 0x10005\n",
    ),
    (
        b"\xe8\xfb\x0f\xff\xff",
        "00010000: e8fb0fffff call 0x1000\n",
    ),
    (
        b"\xe9\xfb\xff\xff\xff",
        "00010000: e9fbffffff jmp 0x10000\n",
    ),
    (
        b"\xe9\x00\x00\x00\x80",
        "00010000: e900000080 jmp 0xffffffff80010005\n",
    ),
    (
        b"\xe9\xff\xff\xff\x7f",
        "00010000: e9ffffff7f jmp 0x80010004\n",
    ),
    (
        b"\x0f\x8d\x0a\x00\x00\x00",
        "00010000: 0f8d0a000000 jccge 0x10010\n",
    ),
    (
        b"\x0f\x82\xfa\xff\xfe\xff",
        "00010000: 0f82fafffeff jccb 0x0\n",
    ),
    (
        b"\x0f\x82\xf9\xff\xfe\xff",
        "00010000: 0f82f9fffeff jccb 0xffffffffffffffff\n",
    ),
    (b"\x0f\x0b", "00010000: 0f0b ud2\n"),
    (b"\x90", "00010000: 90 nop\n"),
];

#[test]
fn lines_of_items(rt: HostRuntime) -> Result<(), Fail> {
    for (code, line) in LINES {
        assert_eq!(rt; listed(&rt, rt.alloc(), code)?.as_str(), line);
    }
    Ok(())
}

/// The instructions that are no items.
static PARTS: [(Instr, &[u8], &str); 3] = [
    (
        Instr::CmpFlat,
        b"\x67\x4d\x3b\x9a\x00\x00\x00\x00",
        "00010000: 674d3b9a00000000 cmpflat\n",
    ),
    (Instr::JmpR10, b"\x41\xff\xe2", "00010000: 41ffe2 jmpr10\n"),
    (
        Instr::CallR10,
        b"\x41\xff\xd2",
        "00010000: 41ffd2 callr10\n",
    ),
];

#[test]
fn lines_of_parts_of_units(rt: HostRuntime) -> Result<(), Fail> {
    for (i, code, line) in PARTS {
        assert!(rt; code.len() <= 8);
        let placed = Placed {
            at: 0,
            len: code.len() as u8,
            item: Item::Plain(i),
        };
        let listing = Listing {
            code,
            items: vec![in rt.alloc(); placed]?,
        };
        assert_eq!(rt; listing_text(rt.alloc(), &listing)?.as_str(), line);
    }
    Ok(())
}

/// A code and its listing.
static LISTINGS: [(&[u8], &str); 3] = [
    (b"", ""),
    (
        b"\x0f\x11\xa1\xa2\xa3\xa4\xa5\xa6\x0f\x0b",
        "00010000: 0f11a1a2a3a4a5a6 callword 0f\n00010008: 0f0b ud2\n",
    ),
    (
        b"\x0f\x11\xa1\xa2\xa3\xa4\xa5\xa6\x40\xb8\x00\x00\x00\x00\x48\x81\xf8\x00\x00\x00\x00\x0f\x84\x08\x00\x00\x00\x48\x89\xf8\xe9\xeb\xff\xff\xff\x0f\x0b",
        "00010000: 0f11a1a2a3a4a5a6 callword 0f
00010008: 40b800000000 movimm32 rax, 0x0
0001000e: 4881f800000000 cmpi rax, 0
00010015: 0f8408000000 jcce 0x10023
0001001b: 4889f8 mov rax, rdi
0001001e: e9ebffffff jmp 0x1000e
00010023: 0f0b ud2
",
    ),
];

#[test]
fn listings(rt: HostRuntime) -> Result<(), Fail> {
    for (code, text) in LISTINGS {
        assert_eq!(rt; listed(&rt, rt.alloc(), code)?.as_str(), text);
    }
    Ok(())
}
