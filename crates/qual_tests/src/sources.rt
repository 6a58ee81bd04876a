//! Which levels are public and which are variables, and the sources of each kind of expression.

use crate::rows::check_lists;
use std::rt::HostRuntime;
use std::test::Fail;

/// Levels that aren't written are public in globals, signatures, members and the types of function pointers.
#[test]
fn public_levels(rt: HostRuntime) -> Result<(), Fail> {
    check_lists(
        &rt,
        rt.alloc(),
        &[
            (
                "long g; private long h; int main(){ long x; x = g; x = h; return 0; }",
                "pub<=?0@48 priv<=?0@55",
            ),
            (
                "char *p; private char *q; char *private r; int main(){ char *x; x = p; x = q; x = r; return 0; }",
                "pub<=?0@68 pub<=?1@68 ?1<=pub@68 pub<=?0@75 priv<=?1@75 ?1<=priv@75 priv<=?0@82 pub<=?1@82 \
                ?1<=pub@82",
            ),
            (
                "char **p; private char *private *q; int main(){ char **x; x = p; x = q; return 0; }",
                "pub<=?0@62 pub<=?1@62 ?1<=pub@62 pub<=?2@62 ?2<=pub@62 pub<=?0@69 priv<=?1@69 ?1<=priv@69 \
                priv<=?2@69 ?2<=priv@69",
            ),
            (
                "struct S { long m; }; char a[2]; private char b[2]; char *private c[2]; struct S s; \
                private struct S u; int main(){ long x; x = a[0]; x = b[0]; x = (long)c[0]; x = s.m; x = u.m; \
                return 0; }",
                "pub<=?0@128 priv<=?0@138 priv<=?0@154 pub<=?0@164 priv<=?0@173",
            ),
            (
                "int (*f)(char *, private long); int (*private g)(char *, private long); int main(){ \
                int (*x)(char *, private long); x = f; x = g; return 0; }",
                "pub<=?0@120 pub<=pub@120 pub<=pub@120 pub<=pub@120 pub<=pub@120 pub<=pub@120 pub<=pub@120 \
                priv<=priv@120 priv<=priv@120 priv<=?0@127 pub<=pub@127 pub<=pub@127 pub<=pub@127 pub<=pub@127 \
                pub<=pub@127 pub<=pub@127 priv<=priv@127 priv<=priv@127",
            ),
            (
                "long f(long a, private long b){ long x; x = a; x = b; return x; }",
                "pub<=?0@44 priv<=?0@51 ?0<=pub@61",
            ),
            ("private long f(void){ long x; return x; }", "?0<=priv@37"),
            (
                "char *f(char *p, private char *q, char *private r){ char *x; x = p; x = q; x = r; return x; }",
                "pub<=?0@65 pub<=?1@65 ?1<=pub@65 pub<=?0@72 priv<=?1@72 ?1<=priv@72 priv<=?0@79 pub<=?1@79 \
                ?1<=pub@79 ?0<=pub@89 ?1<=pub@89 pub<=?1@89",
            ),
            (
                "private char *f(private char *p){ return p; } char *private g(char *p){ return p; }",
                "pub<=pub@41 priv<=priv@41 priv<=priv@41 pub<=priv@79 pub<=pub@79 pub<=pub@79",
            ),
            (
                "int f(int (*g)(char *), int (*private h)(char *)){ int (*x)(char *); x = g; x = h; return 0; }",
                "pub<=?0@73 pub<=pub@73 pub<=pub@73 pub<=pub@73 pub<=pub@73 pub<=pub@73 pub<=pub@73 priv<=?0@80 \
                pub<=pub@80 pub<=pub@80 pub<=pub@80 pub<=pub@80 pub<=pub@80 pub<=pub@80",
            ),
            (
                "long f(long a); int main(){ long x; x = f(x); return 0; } long f(long a){ return a; }",
                "?0<=pub@42 pub<=?0@40 pub<=pub@81",
            ),
            (
                "struct S { char *p; private char *q; char *private *r; int (*f)(private long); }; struct S s; \
                int main(){ char *x; char **y; int (*z)(private long); x = s.p; x = s.q; y = s.r; z = s.f; \
                return 0; }",
                "pub<=?0@153 pub<=?1@153 ?1<=pub@153 pub<=?0@162 priv<=?1@162 ?1<=priv@162 pub<=?2@171 priv<=?3@171 \
                ?3<=priv@171 pub<=?4@171 ?4<=pub@171 pub<=?5@180 pub<=pub@180 pub<=pub@180 priv<=priv@180 \
                priv<=priv@180",
            ),
            (
                "int main(){ char *(*f)(char *, private long); char *(*g)(char *, private long); f = g; return 0; }",
                "?1<=?0@84 pub<=pub@84 pub<=pub@84 pub<=pub@84 pub<=pub@84 pub<=pub@84 pub<=pub@84 pub<=pub@84 \
                pub<=pub@84 priv<=priv@84 priv<=priv@84",
            ),
            (
                "int main(){ long (*f)(int (*private)(private char)); long (*g)(int (*private)(private char)); \
                f = g; return 0; }",
                "?1<=?0@98 pub<=pub@98 pub<=pub@98 priv<=priv@98 priv<=priv@98 pub<=pub@98 pub<=pub@98 priv<=priv@98 \
                priv<=priv@98",
            ),
            (
                "int h(private int v){ return 0; } int main(){ int (*f)(private int); f = (int (*)(private int))h; \
                return 0; }",
                "pub<=pub@95 pub<=pub@95 priv<=priv@95 priv<=priv@95 pub<=pub@73 pub<=pub@73 priv<=priv@73 \
                priv<=priv@73",
            ),
        ],
    )
}

/// Other levels of locals and casts are variables, numbered in source order and from the outermost level inwards.
/// A level that is written takes no number, and neither does the type in `sizeof`.
#[test]
fn variables(rt: HostRuntime) -> Result<(), Fail> {
    check_lists(
        &rt,
        rt.alloc(),
        &[
            (
                "long g; char *p; char **r; int main(){ long x; char *y, z; private char *u; char *private v; \
                char **w; private long k; long t; x = g; y = p; z = g; u = p; v = p; w = r; t = g; return 0; }",
                "pub<=?0@131 pub<=?1@138 pub<=?2@138 ?2<=pub@138 pub<=?3@145 pub<=?4@152 pub<=priv@152 priv<=pub@152 \
                pub<=priv@159 pub<=?5@159 ?5<=pub@159 pub<=?6@166 pub<=?7@166 ?7<=pub@166 pub<=?8@166 ?8<=pub@166 \
                pub<=?9@173",
            ),
            (
                "struct S { long m; }; long g; int h(void){ return 0; } int main(){ char a[2]; char *b[2]; \
                struct S s; struct S *q; int (*f)(void); int (*private k)(void); long t; a[0] = g; *b[0] = g; \
                s.m = g; q->m = g; f = h; f(); k(); t = g; return 0; }",
                "pub<=?0@170 ?1<=pub@174 pub<=?2@181 pub<=?3@190 ?4<=pub@193 pub<=?5@200 pub<=pub@207 pub<=pub@207 \
                ?6<=pub@210 priv<=pub@215 pub<=?7@224",
            ),
            (
                "long f(long a){ long x; { long y; y = a; } long z; z = a; return 0; } int main(){ long x; x = f(1); \
                return 0; }",
                "pub<=?1@38 pub<=?2@55 pub<=?3@94",
            ),
            (
                "long g; int main(){ long x = sizeof(char **); long y; y = g; return 0; }",
                "pub<=?1@58",
            ),
            (
                "char *p; long g; int main(){ long x = *(char *)p, y = g; x = **(char **)g; y = (long)g; long z; \
                z = g; return 0; }",
                "pub<=?2@47 ?2<=pub@47 pub<=pub@47 ?2<=?0@38 pub<=?3@54 pub<=pub@72 ?5<=pub@62 ?6<=?0@61 pub<=?3@85 \
                pub<=?8@100",
            ),
            (
                "long g; int main(){ long x; x = *(private char *)g; x = *(char *private)g; x = (private long)g; \
                long y; y = g; return 0; }",
                "pub<=pub@49 priv<=?0@32 pub<=pub@72 priv<=pub@57 ?2<=?0@56 pub<=?0@93 priv<=?0@79 pub<=?3@108",
            ),
            (
                "long g; int main(){ long x; x = *(char *)(long *)g; return 0; }",
                "?4<=?2@41 ?2<=?4@41 pub<=pub@49 ?2<=?0@32",
            ),
            (
                "long g; int main(){ (int (*)(void))g; (int (*private)(void))g; long y; y = g; return 0; }",
                "pub<=?1@75",
            ),
            (
                "struct S { long m; }; long g; int main(){ long x; x = ((struct S *)g)->m; return 0; }",
                "pub<=pub@67 ?2<=?0@54",
            ),
        ],
    )
}

/// A member's outermost qualifier is its object's. The levels below it are the member's own.
#[test]
fn members(rt: HostRuntime) -> Result<(), Fail> {
    check_lists(
        &rt,
        rt.alloc(),
        &[
            (
                "struct S { long m; char a[2]; char *p; private char *q; }; private struct S s; int main(){ long x; \
                char *y; x = s.m; x = s.a[1]; y = s.p; y = s.q; y = s.a; return 0; }",
                "priv<=?0@112 priv<=?0@121 priv<=?1@133 pub<=?2@133 ?2<=pub@133 priv<=?1@142 priv<=?2@142 \
                ?2<=priv@142 priv<=?2@151 ?2<=priv@151",
            ),
            (
                "struct S { long m; }; private struct S *p; struct S *private q; int main(){ long x; x = p->m; \
                x = q->m; p->m = x; return 0; }",
                "pub<=pub@88 priv<=?0@88 priv<=pub@98 pub<=?0@98 pub<=pub@104 ?0<=priv@111",
            ),
            (
                "struct S { long m; }; struct T { struct S s; struct S a[2]; struct S *p; }; private struct T t; \
                int main(){ long x; x = t.s.m; x = t.a[1].m; x = t.p->m; return 0; }",
                "priv<=?0@120 priv<=?0@131 priv<=pub@145 pub<=?0@145",
            ),
            (
                "struct S { long m; char *a[2]; }; long g; int main(){ struct S s; struct S *q; char *y; s.m = g; \
                y = s.a[1]; y = q->a[0]; return 0; }",
                "pub<=?0@94 ?0<=?3@101 pub<=?4@101 ?4<=pub@101 ?1<=pub@113 ?2<=?3@113 pub<=?4@113 ?4<=pub@113",
            ),
            (
                "struct S { int (*f)(private long); }; private struct S s; int main(){ int (*x)(private long); \
                x = s.f; return 0; }",
                "priv<=?0@98 pub<=pub@98 pub<=pub@98 priv<=priv@98 priv<=priv@98",
            ),
            (
                "struct S { long m; }; private struct S s; private struct S *q; int main(){ long x; x = (&s)->m; \
                x = (*q).m; return 0; }",
                "priv<=?0@87 pub<=pub@102 priv<=?0@100",
            ),
        ],
    )
}

/// A place has its object's qualifier, but one of array type has none. A call has its result's.
#[test]
fn places_and_calls(rt: HostRuntime) -> Result<(), Fail> {
    check_lists(
        &rt,
        rt.alloc(),
        &[
            (
                "private long g; long f(private long a, private char *p){ long x; private long y; char b[2]; x = g; \
                x = a; x = y; x = *p; x = p[0]; x = b[0]; return 0; }",
                "priv<=?0@96 priv<=?0@103 priv<=?0@110 pub<=pub@118 priv<=?0@117 pub<=pub@125 priv<=?0@125 ?1<=?0@135",
            ),
            (
                "struct S { char a[2]; }; private char a[2]; private struct S s; private struct S *q; int main(){ \
                long x; x = a == a; x = s.a == s.a; x = q->a == q->a; return 0; }",
                "pub<=pub@137 pub<=pub@145",
            ),
            (
                "long i; int main(){ long x; x = \"ab\"[i]; x = *\"ab\"; return 0; }",
                "pub<=pub@37 pub<=?0@32 pub<=?0@45",
            ),
            (
                "private long f(void){ return 0; } long g(void){ return 0; } void v(void){ } int main(){ long x; \
                x = f(); x = g(); x = priv_get(); x = (f)(); v(); return 0; }",
                "priv<=?0@100 pub<=?0@109 priv<=?0@118 priv<=?0@134",
            ),
            (
                "private char *(*h)(void); private long (*k)(void); int main(){ char *y; long x; y = h(); x = k(); \
                return 0; }",
                "pub<=pub@84 pub<=?0@84 priv<=?1@84 ?1<=priv@84 pub<=pub@93 priv<=?2@93",
            ),
        ],
    )
}

/// Operators have the sources of their operands, and a choice those of its branches. An assignment has its left side's
/// qualifier. A cast has its operand's sources, and one more where its outermost level is written private.
#[test]
fn operators(rt: HostRuntime) -> Result<(), Fail> {
    check_lists(
        &rt,
        rt.alloc(),
        &[
            (
                "private long a; long b; long c; int main(){ long x; x = -a; x = ~b; x = !a; x = a + b * -c; \
                x = (c - a) + b; return 0; }",
                "priv<=?0@57 pub<=?0@65 priv<=?0@73 priv<=?0@80 pub<=?0@84 pub<=?0@89 pub<=?0@97 priv<=?0@101 \
                pub<=?0@106",
            ),
            (
                "private long a; long b; int main(){ long x; x = a & b; x = a | b; x = a ^ b; x = a << b; \
                x = a >> b; return 0; }",
                "priv<=?0@48 pub<=?0@52 priv<=?0@59 pub<=?0@63 priv<=?0@70 pub<=?0@74 priv<=?0@81 pub<=?0@86 \
                priv<=?0@93 pub<=?0@98",
            ),
            (
                "private long a; long b; int main(){ long x; x = b == a; x = b != a; x = b < a; x = b <= a; \
                x = b > a; x = b >= a; return 0; }",
                "pub<=?0@48 priv<=?0@53 pub<=?0@60 priv<=?0@65 pub<=?0@72 priv<=?0@76 pub<=?0@83 priv<=?0@88 \
                pub<=?0@95 priv<=?0@99 pub<=?0@106 priv<=?0@111",
            ),
            (
                "char *private p; private char *q; int main(){ long x; x = p == q; x = p == 0; x = !p; return 0; }",
                "priv<=?0@58 pub<=?0@63 priv<=?0@70 priv<=?0@83",
            ),
            (
                "char *private p; private long i; private char a[2]; int main(){ char *y; y = p + i; y = i + p; \
                y = p - i; y = a + 1; return 0; }",
                "priv<=?0@77 priv<=?0@81 pub<=?1@77 ?1<=pub@77 priv<=?0@88 priv<=?0@92 pub<=?1@88 ?1<=pub@88 \
                priv<=?0@99 priv<=?0@103 pub<=?1@99 ?1<=pub@99 priv<=?1@110 ?1<=priv@110",
            ),
            (
                "long c; private long a; long b; int main(){ long x; x = c ? a : b; x = c ? b : c ? a : b; return 0; \
                }",
                "pub<=pub@56 priv<=?0@60 pub<=?0@64 pub<=pub@79 pub<=pub@71 pub<=?0@75 priv<=?0@83 pub<=?0@87",
            ),
            (
                "private long k; int main(){ long x; long y; x = y = k; x = (y) = k; return 0; }",
                "priv<=?1@52 ?1<=?0@48 priv<=?1@65 ?1<=?0@59",
            ),
            (
                "struct S { long m; }; private struct S s; int main(){ long x; x = s.m = x; return 0; }",
                "?0<=priv@72 priv<=?0@66",
            ),
            (
                "private long k; long g; int main(){ long x; x = (long)k; x = (private long)g; \
                x = (private long)(private char)g; x = (char)(private long)g; return 0; }",
                "priv<=?0@54 pub<=?0@75 priv<=?0@61 pub<=?0@110 priv<=?0@96 priv<=?0@82 pub<=?0@137 priv<=?0@123",
            ),
            (
                "char *p; int main(){ char *x; x = (char *private)p; x = (private char *)p; return 0; }",
                "pub<=?2@49 ?2<=pub@49 pub<=?0@49 priv<=?0@34 ?2<=?1@34 ?1<=?2@34 pub<=priv@72 priv<=pub@72 \
                pub<=?0@72 priv<=?1@56 ?1<=priv@56",
            ),
        ],
    )
}

/// Literals, strings, sizes, addresses, arrays as pointers, function names and logical operators have no sources.
#[test]
fn no_sources(rt: HostRuntime) -> Result<(), Fail> {
    check_lists(
        &rt,
        rt.alloc(),
        &[
            (
                "int main(){ long x; char *y; x = 5; x = 'a'; x = sizeof(private char); y = 0; y = \"ab\"; return 0; \
                }",
                "pub<=?2@82 ?2<=pub@82",
            ),
            (
                "struct S { char a[2]; }; private char k; private char a[2]; private struct S s; \
                private struct S *q; int main(){ char *y; y = &k; y = a; y = &a; y = s.a; y = &s.a; y = q->a; \
                y = &q->a[1]; return (long)&k; }",
                "priv<=?1@126 ?1<=priv@126 priv<=?1@134 ?1<=priv@134 priv<=?1@141 ?1<=priv@141 priv<=?1@149 \
                ?1<=priv@149 priv<=?1@158 ?1<=priv@158 pub<=pub@168 priv<=?1@168 ?1<=priv@168 pub<=pub@179 \
                priv<=?1@178 ?1<=priv@178",
            ),
            (
                "int h(private int v){ return 0; } int main(){ int (*f)(private int); f = h; return 0; }",
                "pub<=pub@73 pub<=pub@73 priv<=priv@73 priv<=priv@73",
            ),
            (
                "private long k = 5; char a[3] = \"ab\"; int *private p = 0; int main(){ return 0; }",
                "",
            ),
            (
                "private long k; long g; char a[2]; int main(){ long x; x = k && g; x = g || k; x = a && 1; \
                return 0; }",
                "priv<=pub@59 pub<=pub@64 pub<=pub@71 priv<=pub@76",
            ),
        ],
    )
}
