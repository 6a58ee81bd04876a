//! Expressions.

ghost use Rattle.c_grammar.specs.Grammar as form;
ghost use Rattle.c_grammar.specs.Grammar.{AfterUnary, B, CountOperator, Here, In, L, Left, M, N, Out, T, operand, prefix};
ghost use Rattle.c_parser.specs.Operators.{begins_suffix, level_at, operands_between, prefix_of};
ghost use Rattle.c_parser.specs.Parts.{Halts, IsShallow, Reads, Turns};
ghost use Rattle.c_parser.specs.Paths.{Breaks, IsReady, next_is};
ghost use Rattle.c_grammar.specs.Steps.{Arguments, MakeArrow, MakeAssign, MakeBracket, MakeCall, MakeChoice, MakeDot, MakeIndex, MakeInfix, MakeSizeof, OfExpression};
ghost use Rattle.c_grammar.specs.Ways.{typed_operand};
ghost use Rattle.c_parser.specs.declared.errors.ParseError.TheVariants.{NoMemory};
ghost use Rattle.c_grammar.specs.declared.words.Terminal.TheVariants as terminal;
ghost use Rattle.std.specs.Prelude.{◌≡◌, ◌<◌, ◌≤◌, ◌+◌, false, true, [], ◌∷◌, drop, IfErr, IfOk};

use crate::errors::ParseError;
use crate::operators::{
    LEVELS, Operator, begins_expression, begins_primary, begins_suffix, next_operator, next_prefix,
    opens_type,
};
use crate::spot::{NESTING, Spot, fault, next_is, take, take_here};
use crate::type_names::type_name;
use c_ast::program::{Expression, ExpressionKind, PrefixOp};
use c_ast::{Boxed, Items};
use c_grammar::{Terminal, Word};
use std::alloc::Global;

/// An expression of this kind, whose text begins at this place.
fn at_place(place: u32, kind: ExpressionKind) -> Expression
    ensures { result ≡ record { place = place; kind = kind } }
{
    Expression { place, kind }
}

/// A name, a number, a character or a string.
fn literal(words: &[Word], spot: Spot) -> Result<(Expression, Spot), ParseError>
    requires ready { IsReady words.now spot }
    requires shallow { IsShallow spot }
    requires other { next_is (drop spot.at words.now) terminal.Open ≡ false }
    ensures read { IfOk result (λ r. Reads words.now spot (N form.Primary ∷ []) r.1 (OfExpression r.0)) }
    ensures on { IfOk result (λ r. spot.at < r.1.at) }
    ensures refused { IfErr result (Breaks NESTING words.now spot (N form.Primary ∷ [])) }
{
    if next_is(words, spot.at, Terminal::Number) {
        let (number, one) = take(words, spot, Terminal::Number)?;
        let value = number.value;
        return Ok((
            at_place(number.place, ExpressionKind::Number { value }),
            one,
        ));
    }
    if next_is(words, spot.at, Terminal::Character) {
        let (character, two) = take(words, spot, Terminal::Character)?;
        let value = character.value as u8;
        return Ok((
            at_place(character.place, ExpressionKind::Character { value }),
            two,
        ));
    }
    if next_is(words, spot.at, Terminal::String) {
        let (text, three) = take(words, spot, Terminal::String)?;
        let string = text.value as u32;
        return Ok((
            at_place(text.place, ExpressionKind::String { string }),
            three,
        ));
    }
    let (word, four) = take(words, spot, Terminal::Name)?;
    let name = word.value as u32;
    Ok((at_place(word.place, ExpressionKind::Name { name }), four))
}

/// An expression in brackets.
#[cycle(expressions)]
fn bracket(alloc: Global, words: &[Word], spot: Spot) -> Result<(Expression, Spot), ParseError>
    requires ready { IsReady words.now spot }
    requires shallow { IsShallow spot }
    ensures read { IfOk result (λ r. Reads words.now spot (Here ∷ T terminal.Open ∷ N form.Expression ∷ T terminal.Close ∷ B MakeBracket ∷ []) r.1 (OfExpression r.0)) }
    ensures on { IfOk result (λ r. spot.at < r.1.at) }
    ensures refused { IfErr result (Breaks NESTING words.now spot (Here ∷ T terminal.Open ∷ N form.Expression ∷ T terminal.Close ∷ B MakeBracket ∷ [])) }
{
    let (place, one) = take_here(words, spot, Terminal::Open)?;
    let (inner, two) = expression(alloc, words, one)?;
    let (_, three) = take(words, two, Terminal::Close)?;
    let whole = Boxed::new(alloc, inner)?;
    Ok((
        at_place(place, ExpressionKind::Bracket { inner: whole }),
        three,
    ))
}

/// A name, a number, a character, a string, or an expression in brackets.
#[cycle(expressions)]
fn primary(alloc: Global, words: &[Word], spot: Spot) -> Result<(Expression, Spot), ParseError>
    requires ready { IsReady words.now spot }
    requires shallow { IsShallow spot }
    ensures read { IfOk result (λ r. Reads words.now spot (N form.Primary ∷ []) r.1 (OfExpression r.0)) }
    ensures on { IfOk result (λ r. spot.at < r.1.at) }
    ensures refused { IfErr result (Breaks NESTING words.now spot (N form.Primary ∷ [])) }
{
    if next_is(words, spot.at, Terminal::Open) {
        let (inner, one) = bracket(alloc, words, spot)?;
        return Ok((inner, one));
    }
    let (value, two) = literal(words, spot)?;
    Ok((value, two))
}

/// What stands in the brackets of a call.
#[cycle(expressions)]
fn arguments(
    alloc: Global,
    words: &[Word],
    spot: Spot,
) -> Result<(Items<Expression>, Spot), ParseError>
    requires ready { IsReady words.now spot }
    requires shallow { IsShallow spot }
    requires room { spot.depth ≤ NESTING + 1 }
    ensures read { IfOk result (λ r. Reads words.now spot (N form.Arguments ∷ []) r.1 (Arguments r.0)) }
    ensures refused { IfErr result (Breaks NESTING words.now spot (N form.Arguments ∷ [])) }
{
    let mut arguments = Items::new(alloc);
    if !begins_expression(words, spot.at) {
        return Ok((arguments, spot));
    }
    let (first, one) = assign(alloc, words, spot)?;
    arguments.push(first)?;
    let mut here = one;
    while next_is(words, here.at, Terminal::Comma) {
        let (_, two) = take(words, here, Terminal::Comma)?;
        let (next, three) = assign(alloc, words, two)?;
        arguments.push(next)?;
        here = three;
    }
    Ok((arguments, here))
}

/// `[..]` behind an expression.
#[cycle(expressions)]
fn index(
    alloc: Global,
    words: &[Word],
    spot: Spot,
    left: Expression,
) -> Result<(Expression, Spot), ParseError>
    requires ready { IsReady words.now spot }
    requires shallow { IsShallow spot }
    ensures read { IfOk result (λ r. Turns words.now spot (λ back. T terminal.OpenBracket ∷ N form.Expression ∷ T terminal.CloseBracket ∷ M CountOperator ∷ B MakeIndex ∷ back) (OfExpression left) r.1 (λ back. back) (OfExpression r.0)) }
    ensures on { IfOk result (λ r. spot.at < r.1.at) }
    ensures refused { IfErr result (Halts words.now spot (λ back. T terminal.OpenBracket ∷ N form.Expression ∷ T terminal.CloseBracket ∷ M CountOperator ∷ B MakeIndex ∷ back) (OfExpression left)) }
{
    let (_, one) = take(words, spot, Terminal::OpenBracket)?;
    let (inner, two) = expression(alloc, words, one)?;
    let (_, three) = take(words, two, Terminal::CloseBracket)?;
    let marked = Spot {
        ended: three.ended + 1,
        ..three
    };
    let place = left.place;
    let of = Boxed::new(alloc, left)?;
    let at = Boxed::new(alloc, inner)?;
    Ok((at_place(place, ExpressionKind::Index { of, at }), marked))
}

/// `(..)` behind an expression.
#[cycle(expressions)]
fn call(
    alloc: Global,
    words: &[Word],
    spot: Spot,
    left: Expression,
) -> Result<(Expression, Spot), ParseError>
    requires ready { IsReady words.now spot }
    requires shallow { IsShallow spot }
    ensures read { IfOk result (λ r. Turns words.now spot (λ back. T terminal.Open ∷ N form.Arguments ∷ T terminal.Close ∷ M CountOperator ∷ B MakeCall ∷ back) (OfExpression left) r.1 (λ back. back) (OfExpression r.0)) }
    ensures on { IfOk result (λ r. spot.at < r.1.at) }
    ensures refused { IfErr result (Halts words.now spot (λ back. T terminal.Open ∷ N form.Arguments ∷ T terminal.Close ∷ M CountOperator ∷ B MakeCall ∷ back) (OfExpression left)) }
{
    let (_, one) = take(words, spot, Terminal::Open)?;
    let (arguments, two) = arguments(alloc, words, one)?;
    let (_, three) = take(words, two, Terminal::Close)?;
    let marked = Spot {
        ended: three.ended + 1,
        ..three
    };
    let place = left.place;
    let callee = Boxed::new(alloc, left)?;
    Ok((
        at_place(place, ExpressionKind::Call { callee, arguments }),
        marked,
    ))
}

/// `.NAME` behind an expression.
fn member(
    alloc: Global,
    words: &[Word],
    spot: Spot,
    left: Expression,
) -> Result<(Expression, Spot), ParseError>
    requires ready { IsReady words.now spot }
    requires shallow { IsShallow spot }
    ensures read { IfOk result (λ r. Turns words.now spot (λ back. T terminal.Dot ∷ L terminal.Name ∷ M CountOperator ∷ B MakeDot ∷ back) (OfExpression left) r.1 (λ back. back) (OfExpression r.0)) }
    ensures on { IfOk result (λ r. spot.at < r.1.at) }
    ensures refused { IfErr result (Halts words.now spot (λ back. T terminal.Dot ∷ L terminal.Name ∷ M CountOperator ∷ B MakeDot ∷ back) (OfExpression left)) }
{
    let (_, one) = take(words, spot, Terminal::Dot)?;
    let (word, two) = take(words, one, Terminal::Name)?;
    let marked = Spot {
        ended: two.ended + 1,
        ..two
    };
    let place = left.place;
    let of = Boxed::new(alloc, left)?;
    let name = word.value as u32;
    let name_place = word.place;
    let kind = ExpressionKind::Member {
        of,
        name,
        name_place,
    };
    Ok((at_place(place, kind), marked))
}

/// `->NAME` behind an expression.
fn arrow(
    alloc: Global,
    words: &[Word],
    spot: Spot,
    left: Expression,
) -> Result<(Expression, Spot), ParseError>
    requires ready { IsReady words.now spot }
    requires shallow { IsShallow spot }
    ensures read { IfOk result (λ r. Turns words.now spot (λ back. T terminal.Arrow ∷ L terminal.Name ∷ M CountOperator ∷ B MakeArrow ∷ back) (OfExpression left) r.1 (λ back. back) (OfExpression r.0)) }
    ensures on { IfOk result (λ r. spot.at < r.1.at) }
    ensures refused { IfErr result (Halts words.now spot (λ back. T terminal.Arrow ∷ L terminal.Name ∷ M CountOperator ∷ B MakeArrow ∷ back) (OfExpression left)) }
{
    let (_, one) = take(words, spot, Terminal::Arrow)?;
    let (word, two) = take(words, one, Terminal::Name)?;
    let marked = Spot {
        ended: two.ended + 1,
        ..two
    };
    let place = left.place;
    let of = Boxed::new(alloc, left)?;
    let name = word.value as u32;
    let name_place = word.place;
    let kind = ExpressionKind::Arrow {
        of,
        name,
        name_place,
    };
    Ok((at_place(place, kind), marked))
}

/// A suffix, where one is next.
#[cycle(expressions)]
fn suffix(
    alloc: Global,
    words: &[Word],
    spot: Spot,
    left: Expression,
) -> Result<(Expression, Spot), ParseError>
    requires ready { IsReady words.now spot }
    requires shallow { IsShallow spot }
    requires next { begins_suffix (drop spot.at words.now) ≡ true }
    ensures read { IfOk result (λ r. Turns words.now spot (λ back. N form.Suffixes ∷ back) (OfExpression left) r.1 (λ back. N form.Suffixes ∷ back) (OfExpression r.0)) }
    ensures on { IfOk result (λ r. spot.at < r.1.at) }
    ensures refused { IfErr result (Halts words.now spot (λ back. N form.Suffixes ∷ back) (OfExpression left)) }
{
    if next_is(words, spot.at, Terminal::OpenBracket) {
        let (longer, one) = index(alloc, words, spot, left)?;
        return Ok((longer, one));
    }
    if next_is(words, spot.at, Terminal::Open) {
        let (called, two) = call(alloc, words, spot, left)?;
        return Ok((called, two));
    }
    if next_is(words, spot.at, Terminal::Dot) {
        let (part, three) = member(alloc, words, spot, left)?;
        return Ok((part, three));
    }
    let (pointed, four) = arrow(alloc, words, spot, left)?;
    Ok((pointed, four))
}

/// The suffixes behind an expression.
#[cycle(expressions)]
fn suffixes(
    alloc: Global,
    words: &[Word],
    spot: Spot,
    left: Expression,
) -> Result<(Expression, Spot), ParseError>
    requires ready { IsReady words.now spot }
    requires shallow { IsShallow spot }
    ensures read { IfOk result (λ r. Turns words.now spot (λ back. N form.Suffixes ∷ back) (OfExpression left) r.1 (λ back. back) (OfExpression r.0)) }
    ensures refused { IfErr result (Halts words.now spot (λ back. N form.Suffixes ∷ back) (OfExpression left)) }
{
    let mut whole = left;
    let mut here = spot;
    while begins_suffix(words, here.at) {
        let (longer, one) = suffix(alloc, words, here, whole)?;
        whole = longer;
        here = one;
    }
    Ok((whole, here))
}

/// A name, a literal or brackets with its suffixes.
#[cycle(expressions)]
fn postfix(alloc: Global, words: &[Word], spot: Spot) -> Result<(Expression, Spot), ParseError>
    requires ready { IsReady words.now spot }
    requires shallow { IsShallow spot }
    ensures read { IfOk result (λ r. Reads words.now spot (N form.Postfix ∷ []) r.1 (OfExpression r.0)) }
    ensures on { IfOk result (λ r. spot.at < r.1.at) }
    ensures refused { IfErr result (Breaks NESTING words.now spot (N form.Postfix ∷ [])) }
{
    let (first, one) = primary(alloc, words, spot)?;
    let (whole, two) = suffixes(alloc, words, one, first)?;
    Ok((whole, two))
}

/// A sign before its operand.
#[cycle(expressions)]
fn prefixed(
    alloc: Global,
    words: &[Word],
    spot: Spot,
    sign: Terminal,
    op: PrefixOp,
) -> Result<(Expression, Spot), ParseError>
    requires ready { IsReady words.now spot }
    requires shallow { IsShallow spot }
    requires room { spot.depth ≤ NESTING + 3 }
    ensures read { IfOk result (λ r. Reads words.now spot (prefix sign op) r.1 (OfExpression r.0)) }
    ensures on { IfOk result (λ r. spot.at < r.1.at) }
    ensures refused { IfErr result (Breaks NESTING words.now spot (prefix sign op)) }
{
    let inside = Spot {
        depth: spot.depth + 1,
        ..spot
    };
    let (place, one) = take_here(words, inside, sign)?;
    let (of, two) = cast(alloc, words, one)?;
    let outside = Spot {
        depth: spot.depth,
        ..two
    };
    let operand = Boxed::new(alloc, of)?;
    Ok((
        at_place(place, ExpressionKind::Prefix { op, operand }),
        outside,
    ))
}

/// `sizeof` of a type.
fn size_of(alloc: Global, words: &[Word], spot: Spot) -> Result<(Expression, Spot), ParseError>
    requires ready { IsReady words.now spot }
    requires shallow { IsShallow spot }
    ensures read { IfOk result (λ r. Reads words.now spot (Here ∷ T terminal.Sizeof ∷ T terminal.Open ∷ N form.TypeName ∷ T terminal.Close ∷ B MakeSizeof ∷ []) r.1 (OfExpression r.0)) }
    ensures on { IfOk result (λ r. spot.at < r.1.at) }
    ensures refused { IfErr result (Breaks NESTING words.now spot (Here ∷ T terminal.Sizeof ∷ T terminal.Open ∷ N form.TypeName ∷ T terminal.Close ∷ B MakeSizeof ∷ [])) }
{
    let (place, one) = take_here(words, spot, Terminal::Sizeof)?;
    let (_, two) = take(words, one, Terminal::Open)?;
    let (of, three) = type_name(alloc, words, two)?;
    let (_, four) = take(words, three, Terminal::Close)?;
    Ok((at_place(place, ExpressionKind::Sizeof { of }), four))
}

/// A sign with its operand, `sizeof` of a type, or what has suffixes.
#[cycle(expressions)]
fn unary(alloc: Global, words: &[Word], spot: Spot) -> Result<(Expression, Spot), ParseError>
    requires ready { IsReady words.now spot }
    requires shallow { IsShallow spot }
    requires room { spot.depth ≤ NESTING + 3 }
    ensures read { IfOk result (λ r. Reads words.now spot (N form.Unary ∷ []) r.1 (OfExpression r.0)) }
    ensures on { IfOk result (λ r. spot.at < r.1.at) }
    ensures refused { IfErr result (Breaks NESTING words.now spot (N form.Unary ∷ [])) }
{
    if let Some((sign, op)) = next_prefix(words, spot.at) {
        let (signed, one) = prefixed(alloc, words, spot, sign, op)?;
        return Ok((signed, one));
    }
    if next_is(words, spot.at, Terminal::Sizeof) {
        let (size, two) = size_of(alloc, words, spot)?;
        return Ok((size, two));
    }
    if !begins_primary(words, spot.at) {
        return Err(fault(words, spot));
    }
    let (value, three) = postfix(alloc, words, spot)?;
    Ok((value, three))
}

/// A type in brackets and its operand.
#[cycle(expressions)]
fn typed(alloc: Global, words: &[Word], spot: Spot) -> Result<(Expression, Spot), ParseError>
    requires ready { IsReady words.now spot }
    requires shallow { IsShallow spot }
    requires room { spot.depth ≤ NESTING + 3 }
    ensures read { IfOk result (λ r. Reads words.now spot typed_operand r.1 (OfExpression r.0)) }
    ensures on { IfOk result (λ r. spot.at < r.1.at) }
    ensures refused { IfErr result (Breaks NESTING words.now spot typed_operand) }
{
    let inside = Spot {
        depth: spot.depth + 1,
        ..spot
    };
    let (place, one) = take_here(words, inside, Terminal::Open)?;
    let (to, two) = type_name(alloc, words, one)?;
    let (_, three) = take(words, two, Terminal::Close)?;
    let (of, four) = cast(alloc, words, three)?;
    let outside = Spot {
        depth: spot.depth,
        ..four
    };
    let operand = Boxed::new(alloc, of)?;
    Ok((
        at_place(place, ExpressionKind::Cast { to, operand }),
        outside,
    ))
}

/// An operand, perhaps with types in brackets before it.
#[cycle(expressions)]
fn cast(alloc: Global, words: &[Word], spot: Spot) -> Result<(Expression, Spot), ParseError>
    requires ready { IsReady words.now spot }
    requires shallow { IsShallow spot }
    requires room { spot.depth ≤ NESTING + 3 }
    ensures read { IfOk result (λ r. Reads words.now spot (N form.Cast ∷ []) r.1 (OfExpression r.0)) }
    ensures on { IfOk result (λ r. spot.at < r.1.at) }
    ensures refused { IfErr result (Breaks NESTING words.now spot (N form.Cast ∷ [])) }
{
    if opens_type(words, spot.at) {
        let (converted, one) = typed(alloc, words, spot)?;
        return Ok((converted, one));
    }
    let (value, two) = unary(alloc, words, spot)?;
    Ok((value, two))
}

/// An operator and what stands right of it.
#[cycle(expressions)]
fn infix(
    alloc: Global,
    words: &[Word],
    spot: Spot,
    left: Expression,
    operator: Operator,
) -> Result<(Expression, Spot), ParseError>
    requires ready { IsReady words.now spot }
    requires shallow { IsShallow spot }
    requires level { operator.level < 10 }
    ensures read { IfOk result (λ r. Turns words.now spot (λ back. T operator.sign ∷ M CountOperator ∷ N (operand (level_at operator.level)) ∷ B (MakeInfix operator.op) ∷ back) (OfExpression left) r.1 (λ back. back) (OfExpression r.0)) }
    ensures on { IfOk result (λ r. spot.at < r.1.at) }
    ensures refused { IfErr result (Halts words.now spot (λ back. T operator.sign ∷ M CountOperator ∷ N (operand (level_at operator.level)) ∷ B (MakeInfix operator.op) ∷ back) (OfExpression left)) }
{
    let op = operator.op;
    let (_, one) = take(words, spot, operator.sign)?;
    let marked = Spot {
        ended: one.ended + 1,
        ..one
    };
    let (other, two) = operand(alloc, words, marked, operator.level)?;
    let place = left.place;
    let left = Boxed::new(alloc, left)?;
    let right = Boxed::new(alloc, other)?;
    Ok((
        at_place(place, ExpressionKind::Infix { op, left, right }),
        two,
    ))
}

/// The operators of the levels below `bound` behind their first operand, with their other operands.
#[cycle(expressions)]
fn operands(
    alloc: Global,
    words: &[Word],
    spot: Spot,
    left: Expression,
    bound: u8,
) -> Result<(Expression, Spot), ParseError>
    requires ready { IsReady words.now spot }
    requires shallow { IsShallow spot }
    requires bound { bound ≤ 10 }
    ensures read { IfOk result (λ r. Turns words.now spot (operands_between 0 bound) (OfExpression left) r.1 (λ back. back) (OfExpression r.0)) }
    ensures refused { IfErr result (Halts words.now spot (operands_between 0 bound) (OfExpression left)) }
{
    let mut whole = left;
    let mut here = spot;
    let mut passed = 0;
    while let Some(operator) = next_operator(words, here.at, passed, bound) {
        let (longer, one) = infix(alloc, words, here, whole, operator)?;
        whole = longer;
        here = one;
        passed = operator.level;
    }
    Ok((whole, here))
}

/// What stands right of an operator of a level.
#[cycle(expressions)]
fn operand(
    alloc: Global,
    words: &[Word],
    spot: Spot,
    level: u8,
) -> Result<(Expression, Spot), ParseError>
    requires ready { IsReady words.now spot }
    requires shallow { IsShallow spot }
    requires room { spot.depth ≤ NESTING + 3 }
    requires level { level < 10 }
    ensures read { IfOk result (λ r. Reads words.now spot (N (operand (level_at level)) ∷ []) r.1 (OfExpression r.0)) }
    ensures on { IfOk result (λ r. spot.at < r.1.at) }
    ensures refused { IfErr result (Breaks NESTING words.now spot (N (operand (level_at level)) ∷ [])) }
{
    let (first, one) = cast(alloc, words, spot)?;
    let (whole, two) = operands(alloc, words, one, first, level)?;
    Ok((whole, two))
}

/// A choice of its condition and its two ways.
fn choice_of(
    alloc: Global,
    test: Expression,
    first: Expression,
    second: Expression,
) -> Result<Expression, ParseError>
    ensures value { IfOk result (λ r. r ≡ record { place = test.place; kind = ExpressionKind.Choice test first second }) }
    ensures refused { IfErr result (λ e. e ≡ NoMemory) }
{
    let place = test.place;
    let condition = Boxed::new(alloc, test)?;
    let then = Boxed::new(alloc, first)?;
    let otherwise = Boxed::new(alloc, second)?;
    let kind = ExpressionKind::Choice {
        condition,
        then,
        otherwise,
    };
    Ok(at_place(place, kind))
}

/// The two ways of a choice, behind its condition.
#[cycle(expressions)]
fn choice(
    alloc: Global,
    words: &[Word],
    spot: Spot,
    left: Expression,
) -> Result<(Expression, Spot), ParseError>
    requires ready { IsReady words.now spot }
    requires shallow { IsShallow spot }
    ensures read { IfOk result (λ r. Turns words.now spot (λ back. T terminal.Question ∷ N form.Expression ∷ T terminal.Colon ∷ M In ∷ N form.Conditional ∷ M Out ∷ B MakeChoice ∷ back) (OfExpression left) r.1 (λ back. back) (OfExpression r.0)) }
    ensures refused { IfErr result (Halts words.now spot (λ back. T terminal.Question ∷ N form.Expression ∷ T terminal.Colon ∷ M In ∷ N form.Conditional ∷ M Out ∷ B MakeChoice ∷ back) (OfExpression left)) }
{
    let (_, one) = take(words, spot, Terminal::Question)?;
    let (first, two) = expression(alloc, words, one)?;
    let (_, three) = take(words, two, Terminal::Colon)?;
    let inside = Spot {
        depth: three.depth + 1,
        ..three
    };
    let (second, four) = conditional(alloc, words, inside)?;
    let outside = Spot {
        depth: three.depth,
        ..four
    };
    let chosen = choice_of(alloc, left, first, second)?;
    Ok((chosen, outside))
}

/// What may stand behind the first operand of an expression without assignment.
#[cycle(expressions)]
fn rest(
    alloc: Global,
    words: &[Word],
    spot: Spot,
    left: Expression,
) -> Result<(Expression, Spot), ParseError>
    requires ready { IsReady words.now spot }
    requires shallow { IsShallow spot }
    ensures read { IfOk result (λ r. Turns words.now spot (λ back. operands_between 0 10 (N form.PerhapsChoice ∷ back)) (OfExpression left) r.1 (λ back. back) (OfExpression r.0)) }
    ensures refused { IfErr result (Halts words.now spot (λ back. operands_between 0 10 (N form.PerhapsChoice ∷ back)) (OfExpression left)) }
{
    let (whole, one) = operands(alloc, words, spot, left, LEVELS)?;
    if !next_is(words, one.at, Terminal::Question) {
        return Ok((whole, one));
    }
    let (chosen, two) = choice(alloc, words, one, whole)?;
    Ok((chosen, two))
}

/// An expression without assignment.
#[cycle(expressions)]
fn conditional(alloc: Global, words: &[Word], spot: Spot) -> Result<(Expression, Spot), ParseError>
    requires ready { IsReady words.now spot }
    requires shallow { IsShallow spot }
    requires room { spot.depth ≤ NESTING + 3 }
    ensures read { IfOk result (λ r. Reads words.now spot (N form.Conditional ∷ []) r.1 (OfExpression r.0)) }
    ensures on { IfOk result (λ r. spot.at < r.1.at) }
    ensures refused { IfErr result (Breaks NESTING words.now spot (N form.Conditional ∷ [])) }
{
    let (first, one) = cast(alloc, words, spot)?;
    let (whole, two) = rest(alloc, words, one, first)?;
    Ok((whole, two))
}

/// What stands right of a `=`, and the assignment.
#[cycle(expressions)]
fn assigned(
    alloc: Global,
    words: &[Word],
    spot: Spot,
    left: Expression,
) -> Result<(Expression, Spot), ParseError>
    requires ready { IsReady words.now spot }
    requires shallow { IsShallow spot }
    ensures read { IfOk result (λ r. Turns words.now spot (λ back. T terminal.Equals ∷ N form.Assign ∷ B MakeAssign ∷ back) (OfExpression left) r.1 (λ back. back) (OfExpression r.0)) }
    ensures refused { IfErr result (Halts words.now spot (λ back. T terminal.Equals ∷ N form.Assign ∷ B MakeAssign ∷ back) (OfExpression left)) }
{
    let (_, one) = take(words, spot, Terminal::Equals)?;
    let (right, two) = assign(alloc, words, one)?;
    let place = left.place;
    let to = Boxed::new(alloc, left)?;
    let from = Boxed::new(alloc, right)?;
    Ok((at_place(place, ExpressionKind::Assign { to, from }), two))
}

/// What may stand behind an operand at the front of an expression.
#[cycle(expressions)]
fn after_unary(
    alloc: Global,
    words: &[Word],
    spot: Spot,
    left: Expression,
) -> Result<(Expression, Spot), ParseError>
    requires ready { IsReady words.now spot }
    requires shallow { IsShallow spot }
    requires room { 1 ≤ spot.depth }
    ensures read { IfOk result (λ r. Turns words.now spot (λ back. N (Left AfterUnary) ∷ back) (OfExpression left) r.1 (λ back. M Out ∷ back) (OfExpression r.0)) }
    ensures refused { IfErr result (Halts words.now spot (λ back. N (Left AfterUnary) ∷ back) (OfExpression left)) }
{
    if next_is(words, spot.at, Terminal::Equals) {
        let (set, one) = assigned(alloc, words, spot, left)?;
        return Ok((set, one));
    }
    let (whole, two) = rest(alloc, words, spot, left)?;
    Ok((whole, two))
}

/// An expression, and inside of it assignments.
#[cycle(expressions)]
fn assign(alloc: Global, words: &[Word], spot: Spot) -> Result<(Expression, Spot), ParseError>
    requires ready { IsReady words.now spot }
    requires shallow { IsShallow spot }
    requires room { spot.depth ≤ NESTING + 1 }
    ensures read { IfOk result (λ r. Reads words.now spot (N form.Assign ∷ []) r.1 (OfExpression r.0)) }
    ensures on { IfOk result (λ r. spot.at < r.1.at) }
    ensures refused { IfErr result (Breaks NESTING words.now spot (N form.Assign ∷ [])) }
{
    let inside = Spot {
        depth: spot.depth + 1,
        ..spot
    };
    if opens_type(words, spot.at) {
        let (first, one) = typed(alloc, words, inside)?;
        let (whole, two) = rest(alloc, words, one, first)?;
        let outside = Spot {
            depth: spot.depth,
            ..two
        };
        return Ok((whole, outside));
    }
    let (operand, three) = unary(alloc, words, inside)?;
    let (value, four) = after_unary(alloc, words, three, operand)?;
    let outside = Spot {
        depth: spot.depth,
        ..four
    };
    Ok((value, outside))
}

/// An expression inside of another, or the whole of it.
#[cycle(expressions)]
pub fn expression(
    alloc: Global,
    words: &[Word],
    spot: Spot,
) -> Result<(Expression, Spot), ParseError>
    requires ready { IsReady words.now spot }
    requires shallow { IsShallow spot }
    requires room { spot.depth ≤ NESTING + 1 }
    ensures read { IfOk result (λ r. Reads words.now spot (N form.Expression ∷ []) r.1 (OfExpression r.0)) }
    ensures on { IfOk result (λ r. spot.at < r.1.at) }
    ensures refused { IfErr result (Breaks NESTING words.now spot (N form.Expression ∷ [])) }
{
    let (value, one) = assign(alloc, words, spot)?;
    Ok((value, one))
}
