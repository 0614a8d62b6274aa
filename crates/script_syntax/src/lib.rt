//! Trees of terms and formulas, and how they are read from tokens with one token in hand (recursive descent).
#![tactic(auto)]

mod atoms;
mod cursor;
mod declarations;
mod formulas;
mod terms;
mod tree;

pub use cursor::{Cursor, Stop};
pub use tree::{Declaration, NameAt, Part, Quantifier, Relation, Signed, Term, Tree};

#[cfg(test)]
mod tests {
    use super::*;
    use script_tokens::{Kind, tokens};
    use std::test::Fail;

    #[test]
    fn reads_formulas(rt: HostRuntime) -> Result<(), Fail> {
        let alloc = rt.alloc();
        let read = tokens(alloc, b"(x int): x <= 3 # most\n and not x = 2 - 1;", 0)
            .ok()
            .ok_or("no tokens")?;
        let mut cursor = Cursor::new(&read);
        match cursor.header(alloc) {
            Ok(vars) => assert_eq!(rt; vars.len(), 1),
            Err(_) => assert!(rt; false, "no header"),
        }
        assert!(rt; cursor.expect(Kind::Colon).is_ok());
        assert!(rt; cursor.formula(alloc, 256).is_ok());
        assert!(rt; cursor.expect(Kind::Semicolon).is_ok());
        assert!(rt; cursor.is_at_end());
        Ok(())
    }
}
