//! The variables of a loop before its turns and after them.

ghost use Rattle.std.specs.Prelude.{◌≡◌, ◌++◌, [], All, IfOk, None, codes, map};
ghost use Rattle.formula_core.specs.Names.{IsName};
ghost use Rattle.script_syntax.specs.Trees.{declaration_of};
ghost use Rattle.script_names.specs.Faults.{declared_fault};
ghost use Rattle.loop_meaning.specs.Looping.{loop_variables};

use formula_core::Vars;
use lash_io::Memory;
use script_names::variables;
use script_syntax::Declaration;
use std::alloc::Global;

// The name with a single quote mark behind it.
fn primed(alloc: Global, name: &[u8]) -> Result<Vec<u8>, Memory>
    ensures { IfOk result (λ bytes. bytes.items ≡ name.now ++ codes "'") }
{
    let mut bytes = match Vec::from_slice(alloc, name) {
        Ok(bytes) => bytes,
        Err(_) => return Err(Memory),
    };
    match bytes.push(b'\'') {
        Ok(()) => Ok(bytes),
        Err(_) => Err(Memory),
    }
}

/// The declared variables, and behind them the same names each with a single quote mark, with the same sorts. Conditions: their names are
/// names, and none is repeated. Only want of memory is refused.
pub fn loop_vars(alloc: Global, declarations: &[Declaration<'_>]) -> Result<Vars, Memory>
    requires named { All (λ d. IsName (declaration_of d).name.left) declarations.now }
    requires fresh { declared_fault [] (map declaration_of declarations.now) ≡ None }
    ensures { IfOk result (λ vars. vars ≡ loop_variables (map declaration_of declarations.now)) }
{
    let mut vars = match variables(alloc, declarations) {
        Ok(vars) => vars,
        Err(error) => return Err(error),
    };
    for declaration in declarations {
        let name = match primed(alloc, declaration.name.bytes) {
            Ok(name) => name,
            Err(error) => return Err(error),
        };
        match vars.add(&name, declaration.sort) {
            Ok(()) => {}
            Err(error) => return Err(error),
        }
    }
    Ok(vars)
}
