//! A source as it is written, production by production.

use crate::text::Text;
use sqlite_items::{Boxed, Items};

/// A whole source.
#[derive(Debug, Drop)]
pub struct Program {
    /// The names in first-seen order. A name in the tree is a number into this list.
    pub names: Items<Text>,
    /// The bytes of the strings in source order. A string in the tree is a number into this list.
    pub strings: Items<Text>,
    pub items: Items<Item>,
}

/// What stands at the top of a source.
#[derive(Debug, Drop)]
pub enum Item {
    Struct { definition: StructDefinition },
    Object { declaration: Declaration },
    Prototype { header: Header },
    Function { header: Header, body: Block },
}

/// `struct NAME { .. };`
#[derive(Debug, Drop)]
pub struct StructDefinition {
    pub name: u32,
    /// The place of the name.
    pub place: u32,
    pub members: Items<MemberDeclaration>,
}

/// `long a, *b;` in a struct.
#[derive(Debug, Drop)]
pub struct MemberDeclaration {
    pub specifier: Specifier,
    pub declarators: Items<Declarator>,
}

/// A base type, with `private` on either side of it or on both.
#[derive(Clone, Copy, Debug)]
pub struct Specifier {
    /// The place of its first byte.
    pub place: u32,
    pub is_private: bool,
    pub base: Base,
}

#[derive(Clone, Copy, Debug)]
pub enum Base {
    Char,
    Int,
    Long,
    Void,
    /// A struct by its name, and the place of the name.
    Struct { name: u32, place: u32 },
}

/// One `*`, and whether `private` stands after it.
#[derive(Clone, Copy, Debug)]
pub struct Star {
    pub is_private: bool,
}

/// What a declared name is, behind the stars before it.
#[derive(Debug, Drop)]
pub enum Shape {
    Plain,
    /// `NAME[LENGTH]`
    Array {
        length: u64,
    },
    /// `(*NAME)(..)`
    FunctionPointer {
        is_private: bool,
        parameters: Items<TypeName>,
    },
}

/// A declared name with the stars before it.
#[derive(Debug, Drop)]
pub struct Declarator {
    pub name: u32,
    /// The place of the name.
    pub place: u32,
    pub stars: Items<Star>,
    pub shape: Shape,
}

/// A declarator and its initialiser.
#[derive(Debug, Drop)]
pub struct Initialised {
    pub declarator: Declarator,
    pub start: Option<Boxed<Expression>>,
}

/// `int a = 1, *b;` at the top or in a block.
#[derive(Debug, Drop)]
pub struct Declaration {
    pub specifier: Specifier,
    pub declarators: Items<Initialised>,
}

/// A type and a name.
#[derive(Debug, Drop)]
pub struct Parameter {
    pub specifier: Specifier,
    pub declarator: Declarator,
}

/// What a function gives, its name and its parameters. `(void)` has none.
#[derive(Debug, Drop)]
pub struct Header {
    pub specifier: Specifier,
    pub stars: Items<Star>,
    pub name: u32,
    /// The place of the name.
    pub place: u32,
    pub parameters: Items<Parameter>,
}

/// A type without a name, as in a cast.
#[cycle(type_names)]
#[derive(Debug, Drop)]
pub struct TypeName {
    pub specifier: Specifier,
    pub stars: Items<Star>,
    pub shape: TypeShape,
}

/// What a type without a name is, behind its stars.
#[cycle(type_names)]
#[derive(Debug, Drop)]
pub enum TypeShape {
    Plain,
    /// `(*)(..)`
    FunctionPointer {
        is_private: bool,
        parameters: Items<TypeName>,
    },
}

/// `{ .. }`
#[cycle(statements)]
#[derive(Debug, Drop)]
pub struct Block {
    /// The place of its first byte.
    pub place: u32,
    pub items: Items<BlockItem>,
}

#[cycle(statements)]
#[derive(Debug, Drop)]
pub enum BlockItem {
    Declare { declaration: Declaration },
    Run { statement: Statement },
}

/// A statement and the place of its first byte.
#[cycle(statements)]
#[derive(Debug, Drop)]
pub struct Statement {
    pub place: u32,
    pub kind: StatementKind,
}

#[cycle(statements)]
#[derive(Debug, Drop)]
pub enum StatementKind {
    Block {
        block: Block,
    },
    Eval {
        value: Option<Boxed<Expression>>,
    },
    If {
        condition: Boxed<Expression>,
        then: Boxed<Statement>,
        otherwise: Option<Boxed<Statement>>,
    },
    While {
        condition: Boxed<Expression>,
        body: Boxed<Statement>,
    },
    DoWhile {
        body: Boxed<Statement>,
        condition: Boxed<Expression>,
    },
    For {
        first: Option<Boxed<Expression>>,
        condition: Option<Boxed<Expression>>,
        after: Option<Boxed<Expression>>,
        body: Boxed<Statement>,
    },
    Return {
        value: Option<Boxed<Expression>>,
    },
    Break,
    Continue,
}

/// An expression and the place of its first byte. The place of an operator between two operands is
/// its left operand's, brackets included.
#[cycle(expressions)]
#[derive(Debug, Drop)]
pub struct Expression {
    pub place: u32,
    pub kind: ExpressionKind,
}

#[cycle(expressions)]
#[derive(Debug, Drop)]
pub enum ExpressionKind {
    Name {
        name: u32,
    },
    Number {
        value: u64,
    },
    Character {
        value: u8,
    },
    String {
        string: u32,
    },
    Bracket {
        inner: Boxed<Expression>,
    },
    Prefix {
        op: PrefixOp,
        operand: Boxed<Expression>,
    },
    Sizeof {
        of: TypeName,
    },
    Cast {
        to: TypeName,
        operand: Boxed<Expression>,
    },
    Infix {
        op: InfixOp,
        left: Boxed<Expression>,
        right: Boxed<Expression>,
    },
    Choice {
        condition: Boxed<Expression>,
        then: Boxed<Expression>,
        otherwise: Boxed<Expression>,
    },
    Assign {
        to: Boxed<Expression>,
        from: Boxed<Expression>,
    },
    Call {
        callee: Boxed<Expression>,
        arguments: Items<Expression>,
    },
    Index {
        of: Boxed<Expression>,
        at: Boxed<Expression>,
    },
    /// `of.NAME`
    Member {
        of: Boxed<Expression>,
        name: u32,
        name_place: u32,
    },
    /// `of->NAME`
    Arrow {
        of: Boxed<Expression>,
        name: u32,
        name_place: u32,
    },
}

/// `-`, `~`, `!`, `*` and `&` before an operand.
#[derive(Clone, Copy, Debug, PartialEq, Eq)]
pub enum PrefixOp {
    Negate,
    Complement,
    IsZero,
    Follow,
    Address,
}

/// The operators of the left-associative levels, the loosest first.
#[derive(Clone, Copy, Debug, PartialEq, Eq)]
pub enum InfixOp {
    Either,
    Both,
    BitOr,
    BitXor,
    BitAnd,
    Equal,
    NotEqual,
    Less,
    LessEqual,
    Greater,
    GreaterEqual,
    ShiftLeft,
    ShiftRight,
    Add,
    Subtract,
    Multiply,
    Divide,
    Remainder,
}
