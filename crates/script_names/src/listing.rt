//! The list of declared variables.

ghost use Rattle.std.specs.Prelude.{◌≡◌, All, IfOk, map, [], None};
ghost use Rattle.formula_core.specs.Names.{IsVariableName};
ghost use Rattle.script_syntax.specs.Trees.{declaration_of};
ghost use Rattle.script_names.specs.Scopes.{with_declared};
ghost use Rattle.script_names.specs.Faults.{declared_fault};

use formula_core::Vars;
use lash_io::Memory;
use script_syntax::Declaration;
use std::alloc::Global;

/// The list of declared variables. Conditions: their names are variables' names, and none is repeated. Only want of memory is refused.
pub fn variables(alloc: Global, declarations: &[Declaration<'_>]) -> Result<Vars, Memory>
    requires named { All (λ d. IsVariableName (declaration_of d).name.left) declarations.now }
    requires fresh { declared_fault [] (map declaration_of declarations.now) ≡ None }
    ensures { IfOk result (λ vars. vars ≡ with_declared [] (map declaration_of declarations.now)) }
{
    let mut vars = Vars::new(alloc);
    for declaration in declarations {
        match vars.add(declaration.name.bytes, declaration.sort) {
            Ok(()) => {}
            Err(error) => return Err(error),
        }
    }
    Ok(vars)
}
