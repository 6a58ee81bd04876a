//! A source whose names are looked up and whose expressions have types.

use crate::qualifiers::Ty;
use crate::text::Text;
use sqlite_items::{Boxed, Items};

/// A whole source. A struct, a global, a string and a function is named by its position in its list.
#[derive(Debug, Drop)]
pub struct Typed {
    pub structs: Items<StructDef>,
    pub globals: Items<Global>,
    pub strings: Items<Text>,
    pub functions: Items<Function>,
    /// How many qualifier variables there are.
    pub vars: u32,
}

#[derive(Debug, Drop)]
pub struct StructDef {
    pub name: u32,
    pub place: u32,
    pub members: Items<Local>,
}

#[derive(Debug, Drop)]
pub struct Global {
    pub name: u32,
    pub place: u32,
    pub ty: Ty,
    /// The start bytes, and no bytes without an initialiser.
    pub start: Text,
}

#[derive(Debug, Drop)]
pub struct Function {
    pub name: u32,
    pub place: u32,
    pub ret: Ty,
    pub params: Items<Local>,
    pub locals: Items<Local>,
    pub body: Stmt,
}

/// A parameter, a local or a member.
#[derive(Debug, Drop)]
pub struct Local {
    pub name: u32,
    pub place: u32,
    pub ty: Ty,
}

#[cycle(typed_expressions)]
#[derive(Debug, Drop)]
pub struct Expr {
    pub place: u32,
    pub ty: Ty,
    pub kind: ExprKind,
}

/// Numbers, characters and `sizeof` are `Num`. The type of a `Cast` is its node's.
#[cycle(typed_expressions)]
#[derive(Debug, Drop)]
pub enum ExprKind {
    Num {
        value: u64,
    },
    Str {
        string: u32,
    },
    /// A parameter's position, or the number of parameters plus a local's position.
    Local {
        number: u32,
    },
    Global {
        number: u32,
    },
    Func {
        number: u32,
    },
    /// A gate by its number.
    Stub {
        number: u8,
    },
    Unary {
        op: UnaryOp,
        e: Boxed<Expr>,
    },
    Binary {
        op: BinaryOp,
        a: Boxed<Expr>,
        b: Boxed<Expr>,
    },
    Logic {
        op: LogicOp,
        a: Boxed<Expr>,
        b: Boxed<Expr>,
    },
    Cond {
        on: Boxed<Expr>,
        yes: Boxed<Expr>,
        no: Boxed<Expr>,
    },
    Assign {
        to: Boxed<Expr>,
        from: Boxed<Expr>,
    },
    Call {
        callee: Boxed<Expr>,
        args: Items<Expr>,
    },
    Index {
        of: Boxed<Expr>,
        at: Boxed<Expr>,
    },
    Member {
        of: Boxed<Expr>,
        member: u32,
    },
    Arrow {
        of: Boxed<Expr>,
        member: u32,
    },
    Deref {
        e: Boxed<Expr>,
    },
    Addr {
        e: Boxed<Expr>,
    },
    Cast {
        e: Boxed<Expr>,
    },
}

/// `-`, `~` and `!`.
#[derive(Clone, Copy, Debug, PartialEq, Eq)]
pub enum UnaryOp {
    Neg,
    Not,
    IsZero,
}

#[derive(Clone, Copy, Debug, PartialEq, Eq)]
pub enum BinaryOp {
    Add,
    Sub,
    Mul,
    Div,
    Rem,
    And,
    Or,
    Xor,
    Shl,
    Shr,
    Eq,
    Ne,
    Less,
    LessEq,
    Greater,
    GreaterEq,
}

/// `&&` and `||`.
#[derive(Clone, Copy, Debug, PartialEq, Eq)]
pub enum LogicOp {
    Both,
    Either,
}

/// A statement and the place of its first byte. That of a `Declare` is its name's.
#[cycle(typed_statements)]
#[derive(Debug, Drop)]
pub struct Stmt {
    pub place: u32,
    pub kind: StmtKind,
}

#[cycle(typed_statements)]
#[derive(Debug, Drop)]
pub enum StmtKind {
    Block {
        items: Items<Stmt>,
    },
    /// A local's declaration. `local` is its position in `locals`, without the parameters that a `Local` node counts first. `start` is the
    /// assignment of its initialiser.
    Declare {
        local: u32,
        start: Option<Boxed<Expr>>,
    },
    Eval {
        e: Option<Boxed<Expr>>,
    },
    If {
        on: Boxed<Expr>,
        yes: Boxed<Stmt>,
        no: Option<Boxed<Stmt>>,
    },
    While {
        on: Boxed<Expr>,
        body: Boxed<Stmt>,
    },
    DoWhile {
        body: Boxed<Stmt>,
        on: Boxed<Expr>,
    },
    For {
        first: Option<Boxed<Expr>>,
        on: Option<Boxed<Expr>>,
        after: Option<Boxed<Expr>>,
        body: Boxed<Stmt>,
    },
    Return {
        e: Option<Boxed<Expr>>,
    },
    Break,
    Continue,
}

impl Expr {
    ghost use Rattle.c_ast.specs.Nodes.{nodes_of};
    ghost use Rattle.std.specs.Prelude.{◌≡◌, ◌<◌, ◌^◌};

    /// How many nodes it has.
    pub fn nodes(&self) -> u64
        requires { nodes_of self.now < 2 ^ 64 }
        ensures { result ≡ nodes_of self.now }
    {
        match &self.kind {
            ExprKind::Unary { e, .. }
            | ExprKind::Deref { e }
            | ExprKind::Addr { e }
            | ExprKind::Cast { e }
            | ExprKind::Member { of: e, .. }
            | ExprKind::Arrow { of: e, .. } => 1 + e.get().nodes(),
            ExprKind::Binary { a, b, .. }
            | ExprKind::Logic { a, b, .. }
            | ExprKind::Assign { to: a, from: b }
            | ExprKind::Index { of: a, at: b } => 1 + a.get().nodes() + b.get().nodes(),
            ExprKind::Cond { on, yes, no } => {
                1 + on.get().nodes() + yes.get().nodes() + no.get().nodes()
            }
            ExprKind::Call { callee, args } => {
                let mut count = 1 + callee.get().nodes();
                for arg in args.as_slice() {
                    count += arg.nodes();
                }
                count
            }
            _ => 1,
        }
    }
}
