//! The levels below pointers, in pairs.

use crate::rows::check_lists;
use std::rt::HostRuntime;
use std::test::Fail;

/// Where a pointer flows, the levels below it are the same, from the outside in, at the place of the pointer.
#[test]
fn pointers_that_flow(rt: HostRuntime) -> Result<(), Fail> {
    check_lists(
        &rt,
        rt.alloc(),
        &[
            (
                "private char **private *p; int main(){ char ***q; q = p; return 0; }",
                "pub<=?0@54 priv<=?1@54 ?1<=priv@54 pub<=?2@54 ?2<=pub@54 priv<=?3@54 ?3<=priv@54",
            ),
            (
                "char *f(char *p){ char *q = p; q = f(q); return q; }",
                "pub<=?0@28 pub<=?1@28 ?1<=pub@28 ?0<=pub@37 ?1<=pub@37 pub<=?1@37 pub<=?0@35 pub<=?1@35 ?1<=pub@35 \
                ?0<=pub@48 ?1<=pub@48 pub<=?1@48",
            ),
            (
                "int main(){ char x; char *p; char **r; char a[2]; char *b[2]; p = &x; p = a; r = &p; r = b; p = *r; \
                p = r[1]; p = a + 1; return 0; }",
                "?0<=?2@66 ?2<=?0@66 ?6<=?2@74 ?2<=?6@74 ?1<=?4@81 ?4<=?1@81 ?2<=?5@81 ?5<=?2@81 ?7<=?4@89 ?4<=?7@89 \
                ?8<=?5@89 ?5<=?8@89 ?3<=pub@97 ?4<=?1@96 ?5<=?2@96 ?2<=?5@96 ?3<=pub@104 ?4<=?1@104 ?5<=?2@104 \
                ?2<=?5@104 ?6<=?2@114 ?2<=?6@114",
            ),
            (
                "private char *p; int main(){ char *q; char *r; q = r = p; return 0; }",
                "pub<=?2@55 priv<=?3@55 ?3<=priv@55 ?2<=?0@51 ?3<=?1@51 ?1<=?3@51",
            ),
            (
                "private char *p; long i; int main(){ char *q; q = i + p; return 0; }",
                "pub<=?0@50 pub<=?0@54 priv<=?1@50 ?1<=priv@50",
            ),
            (
                "private char *p; int main(){ char *q; q = (p); q = (p + 1); q = (p + 1) + 1; return 0; }",
                "pub<=?0@43 priv<=?1@43 ?1<=priv@43 pub<=?0@52 priv<=?1@52 ?1<=priv@52 pub<=?0@65 priv<=?1@64 \
                ?1<=priv@64",
            ),
            (
                "struct S { char *p; }; private struct S s; int main(){ struct S *q; q = &s; return 0; }",
                "priv<=?1@72 ?1<=priv@72",
            ),
            (
                "private char *q; int main(){ char *p; p = 0; p = (0); return p == q; }",
                "?0<=pub@61 pub<=pub@66",
            ),
        ],
    )
}

/// Where two pointers are the branches of a choice, the levels below them are the same, at the place of the first.
#[test]
fn branches(rt: HostRuntime) -> Result<(), Fail> {
    check_lists(
        &rt,
        rt.alloc(),
        &[
            (
                "private char *p; char *q; char a[2]; int main(){ 1 ? p : q; 1 ? q : p; 1 ? a : p; 1 ? \"a\" : p; \
                1 ? 0 : p; 1 ? p : 0; return 0; }",
                "priv<=pub@53 pub<=priv@53 pub<=priv@64 priv<=pub@64 pub<=priv@75 priv<=pub@75 pub<=priv@86 \
                priv<=pub@86",
            ),
            (
                "private char **p; int main(){ char *private *q; 1 ? p : q; 1 ? q : p; return 0; }",
                "pub<=priv@52 priv<=pub@52 priv<=?1@52 ?1<=priv@52 priv<=pub@63 pub<=priv@63 ?1<=priv@63 priv<=?1@63",
            ),
            (
                "private char *p; int main(){ char *r; r = 1 ? 0 : p; r = 1 ? p : 0; return 0; }",
                "pub<=?0@50 priv<=?1@42 ?1<=priv@42 pub<=?0@61 priv<=?1@57 ?1<=priv@57",
            ),
            (
                "char *p; private char *q; int main(){ long x; x = *(1 ? p : q); x = *(1 ? 0 : q); return 0; }",
                "pub<=priv@56 priv<=pub@56 pub<=pub@56 pub<=pub@60 pub<=?0@50 pub<=pub@78 priv<=?0@68",
            ),
            (
                "int h(private int v){ return 0; } int (*g)(private int); int main(){ int (*f)(private int); \
                f = 1 ? h : g; f = 1 ? g : h; return 0; }",
                "pub<=pub@100 pub<=pub@100 priv<=priv@100 priv<=priv@100 pub<=?0@104 pub<=pub@96 pub<=pub@96 \
                priv<=priv@96 priv<=priv@96 pub<=pub@115 pub<=pub@115 priv<=priv@115 priv<=priv@115 pub<=?0@115 \
                pub<=pub@111 pub<=pub@111 priv<=priv@111 priv<=priv@111",
            ),
            (
                "char *p; private char *q; int main(){ char *r; 1 ? p : 1 ? q : r; 1 ? (1 ? p : q) : r; return 0; }",
                "priv<=?1@59 ?1<=priv@59 pub<=priv@51 priv<=pub@51 pub<=priv@75 priv<=pub@75 pub<=?1@71 ?1<=pub@71",
            ),
        ],
    )
}

/// Results and parameters of function types are levels too.
#[test]
fn functions(rt: HostRuntime) -> Result<(), Fail> {
    check_lists(
        &rt,
        rt.alloc(),
        &[
            (
                "int main(){ int (*f)(int); int (*g)(private int); f = g; return 0; }",
                "?1<=?0@54 pub<=pub@54 pub<=pub@54 priv<=pub@54 pub<=priv@54",
            ),
            (
                "private int h(void){ return 0; } int main(){ int (*f)(void); f = h; return 0; }",
                "priv<=pub@65 pub<=priv@65",
            ),
            (
                "void h(void){ } int main(){ void (*f)(void); f = h; f = 0; return 0; }",
                "",
            ),
            (
                "int h(private char *private *p){ return 0; } int main(){ int (*f)(char **); f = h; return 0; }",
                "pub<=pub@80 pub<=pub@80 pub<=pub@80 pub<=pub@80 priv<=pub@80 pub<=priv@80 priv<=pub@80 pub<=priv@80",
            ),
            (
                "int h(long (*g)(private char), int (*private k)(void)){ return 0; } int main(){ \
                int (*f)(long (*)(char), int (*)(void)); f = h; return 0; }",
                "pub<=pub@125 pub<=pub@125 pub<=pub@125 pub<=pub@125 pub<=pub@125 pub<=pub@125 priv<=pub@125 \
                pub<=priv@125 priv<=pub@125 pub<=priv@125 pub<=pub@125 pub<=pub@125",
            ),
            (
                "int g(int (*f)(int)){ return 0; } int h(private int v){ return 0; } int main(){ g(h); return 0; }",
                "pub<=pub@82 pub<=pub@82 priv<=pub@82 pub<=priv@82",
            ),
        ],
    )
}

/// A cast between pointers pairs their levels up to the first two that aren't both pointers, and functions only where
/// their shapes are equal.
#[test]
fn casts(rt: HostRuntime) -> Result<(), Fail> {
    check_lists(
        &rt,
        rt.alloc(),
        &[
            (
                "int main(){ char *p; (private char *)p; (char *)p; return 0; }",
                "?1<=priv@37 priv<=?1@37 ?1<=?4@48 ?4<=?1@48",
            ),
            (
                "int main(){ char *p; (long *)p; (char ***)p; return 0; }",
                "?1<=?3@29 ?3<=?1@29 ?1<=?5@42 ?5<=?1@42",
            ),
            (
                "int main(){ char **p; (char *)p; (long **)p; return 0; }",
                "?1<=?4@30 ?4<=?1@30 ?1<=?6@42 ?6<=?1@42 ?2<=?7@42 ?7<=?2@42",
            ),
            (
                "struct S { long m; }; struct T { long m; }; int main(){ char *p; struct S *q; (struct S *)p; \
                (private char *)q; (struct T *)q; return 0; }",
                "?1<=?5@90 ?5<=?1@90 ?3<=priv@109 priv<=?3@109 ?3<=?8@124 ?8<=?3@124",
            ),
            (
                "int main(){ char a[2]; char *b[2]; (long *)a; (char *)b; (long **)b; return 0; }",
                "?0<=?4@43 ?4<=?0@43 ?1<=?6@54 ?6<=?1@54 ?1<=?8@66 ?8<=?1@66 ?2<=?9@66 ?9<=?2@66",
            ),
            (
                "int main(){ (long *)\"ab\"; (private char *)\"ab\"; return 0; }",
                "pub<=?1@20 ?1<=pub@20 pub<=priv@42 priv<=pub@42",
            ),
            (
                "long g; int main(){ char *p; (char *)g; (long)p; (char *)0; (long)\"a\"; return 0; }",
                "",
            ),
            (
                "int main(){ int (*f)(int); char *p; (private int (*)(int))f; (int (*)(private int))f; \
                (long (*)(int))f; (void (*)(int))f; (int (*)(int, int))f; (char *)f; (int (*)(int))p; return 0; }",
                "pub<=priv@58 priv<=pub@58 pub<=pub@58 pub<=pub@58 pub<=pub@83 pub<=pub@83 pub<=priv@83 priv<=pub@83",
            ),
            (
                "int main(){ int (*f)(int (*)(char)); (int (*)(int (*)(private char)))f; \
                (private int (*)(int (*)(long)))f; return 0; }",
                "pub<=pub@69 pub<=pub@69 pub<=pub@69 pub<=pub@69 pub<=pub@69 pub<=pub@69 pub<=priv@69 priv<=pub@69",
            ),
            (
                "struct S { long m; }; struct T { long m; }; int main(){ int (*f)(struct S *); \
                (private int (*)(struct T *))f; (private int (*)(struct S **))f; (int (*)(private struct S *))f; \
                return 0; }",
                "pub<=pub@172 pub<=pub@172 pub<=pub@172 pub<=pub@172 pub<=priv@172 priv<=pub@172",
            ),
            (
                "int main(){ char **p; int (*f)(void); (int (*)(void))p; (char ***)f; return 0; }",
                "",
            ),
            (
                "int main(){ int (*f)(void); (char **)&f; (char *)&f; return 0; }",
                "?0<=?2@37 ?2<=?0@37 ?0<=?5@49 ?5<=?0@49",
            ),
            (
                "private char *p; int main(){ char *q; q = (char *)p; q = (char *)(long)p; return 0; }",
                "priv<=?3@50 ?3<=priv@50 pub<=?0@50 ?3<=?1@42 ?1<=?3@42 pub<=?0@71 ?5<=?1@57 ?1<=?5@57",
            ),
        ],
    )
}
