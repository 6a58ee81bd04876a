//! Names with types.

ghost use Rattle.std.specs.Prelude.{◌≡◌, OnOk};
ghost use Rattle.type_rules.specs.Notes.{with_typed};

use c_ast::typed::Local;
use c_ast::{Items, Ty};
use cv_word::NoMemory;

/// What isn't typed is left out.
pub fn push_local(
    locals: &mut Items<Local>,
    name: u32,
    place: u32,
    ty: Option<Ty>,
) -> Result<(), NoMemory>
    ensures { OnOk result (locals.new ≡ with_typed name place ty locals.old) }
{
    if let Some(ty) = ty {
        locals.push(Local { name, place, ty })?;
    }
    Ok(())
}
