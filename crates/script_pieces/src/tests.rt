//! Pieces of scripts in memory, by the text of the definitions.

ghost use Rattle.std.specs.Prelude.{◌≤◌};

use super::*;
use crate::limits::within_limits;
use lash_io::MemSource;
use std::alloc::{AllocError, Global};
use std::test::Fail;

/// Bytes that come in pieces of a given size, from a source whose stated calls fail.
fn source(alloc: Global, bytes: &[u8], piece: usize, fails: &[u64]) -> Result<MemSource, AllocError>
    requires { 1 ≤ piece }
{
    let bytes = Vec::from_slice(alloc, bytes)?;
    Ok(MemSource::new(bytes, piece, Vec::from_slice(alloc, fails)?))
}

/// What a new reader finds ahead of bytes that all come at once, and how many bytes it holds then.
fn ahead_of(alloc: Global, bytes: &[u8]) -> Result<(Result<Ahead, PieceError>, usize), Fail> {
    let mut source = source(alloc, bytes, usize::MAX, &[])?;
    let mut pieces = Pieces::new(alloc).ok().ok_or("memory")?;
    let ahead = pieces.fetch(&mut source);
    Ok((ahead, pieces.held().len()))
}

/// So many spaces, and then some bytes.
fn behind_spaces(alloc: Global, count: usize, bytes: &[u8]) -> Result<Vec<u8>, AllocError> {
    let mut all = vec![in alloc; b' '; count]?;
    all.extend_from_slice(bytes)?;
    Ok(all)
}

/// What a new reader finds ahead of so many spaces, and then some bytes.
fn ahead_of_spaces(
    alloc: Global,
    count: usize,
    bytes: &[u8],
) -> Result<Result<Ahead, PieceError>, Fail> {
    let all = behind_spaces(alloc, count, bytes)?;
    Ok(ahead_of(alloc, all.as_slice())?.0)
}

/// What is ahead; a whole statement is given, and its bytes put behind those of earlier ones.
fn next(pieces: &mut Pieces, source: &mut MemSource, into: &mut Vec<u8>) -> Result<Ahead, Fail> {
    let ahead = pieces.fetch(source)?;
    if let Ahead::Statement(count) = ahead {
        if count <= pieces.held().len() {
            into.extend_from_slice(&pieces.held()[..count])?;
            into.push(b'|')?;
            pieces.give(count);
        }
    }
    Ok(ahead)
}

#[test]
fn statements_come_one_by_one(rt: HostRuntime) -> Result<(), Fail> {
    let mut source = source(rt.alloc(), b"a;b;c", 1, &[])?;
    let mut pieces = Pieces::new(rt.alloc()).ok().ok_or("memory")?;
    let mut into = Vec::new(rt.alloc());
    assert_eq!(rt;
        next(&mut pieces, &mut source, &mut into)?,
        Ahead::Statement(2)
    );
    assert_eq!(rt; pieces.held(), b"".as_slice());
    assert_eq!(rt;
        next(&mut pieces, &mut source, &mut into)?,
        Ahead::Statement(2)
    );
    assert_eq!(rt; next(&mut pieces, &mut source, &mut into)?, Ahead::Rest);
    assert_eq!(rt; into.as_slice(), b"a;|b;|".as_slice());
    assert_eq!(rt; pieces.held(), b"c".as_slice());
    assert_eq!(rt; pieces.given(), 4);
    Ok(())
}

#[test]
fn comments_hold_semicolons(rt: HostRuntime) -> Result<(), Fail> {
    assert_eq!(rt;
        ahead_of(rt.alloc(), b"a # b; c\n;d;")?,
        (Ok(Ahead::Statement(10)), 12)
    );
    assert_eq!(rt;
        ahead_of(rt.alloc(), b"#\n#;\n;")?,
        (Ok(Ahead::Statement(6)), 6)
    );
    assert_eq!(rt; ahead_of(rt.alloc(), b"#;#\xff;")?, (Ok(Ahead::Rest), 5));
    assert_eq!(rt; ahead_of(rt.alloc(), b"")?, (Ok(Ahead::Rest), 0));
    Ok(())
}

#[test]
fn comments_go_on_from_read_to_read(rt: HostRuntime) -> Result<(), Fail> {
    let mut source = source(rt.alloc(), b"# a;\nb;c;", 3, &[])?;
    let mut pieces = Pieces::new(rt.alloc()).ok().ok_or("memory")?;
    let mut into = Vec::new(rt.alloc());
    assert_eq!(rt;
        next(&mut pieces, &mut source, &mut into)?,
        Ahead::Statement(7)
    );
    assert_eq!(rt; pieces.held(), b"c;".as_slice());
    assert_eq!(rt;
        next(&mut pieces, &mut source, &mut into)?,
        Ahead::Statement(2)
    );
    assert_eq!(rt; into.as_slice(), b"# a;\nb;|c;|".as_slice());
    Ok(())
}

#[test]
fn a_statement_has_65536_bytes_at_the_most(rt: HostRuntime) -> Result<(), Fail> {
    assert_eq!(rt;
        ahead_of_spaces(rt.alloc(), 65_535, b";")?,
        Ok(Ahead::Statement(65_536))
    );
    assert_eq!(rt;
        ahead_of_spaces(rt.alloc(), 65_536, b";")?,
        Err(PieceError::StatementBytes)
    );
    assert_eq!(rt; ahead_of_spaces(rt.alloc(), 65_536, b"")?, Ok(Ahead::Rest));
    assert_eq!(rt;
        ahead_of_spaces(rt.alloc(), 65_536, b"#")?,
        Err(PieceError::StatementBytes)
    );
    Ok(())
}

#[test]
fn statements_longer_than_the_buffer_together(rt: HostRuntime) -> Result<(), Fail> {
    let statement = behind_spaces(rt.alloc(), 60_000, b";")?;
    let mut all = Vec::new(rt.alloc());
    for _ in 0..4 {
        all.extend_from_slice(statement.as_slice())?;
    }
    let mut source = source(rt.alloc(), all.as_slice(), 50_000, &[])?;
    let mut pieces = Pieces::new(rt.alloc()).ok().ok_or("memory")?;
    let mut into = Vec::new(rt.alloc());
    for _ in 0..4 {
        assert_eq!(rt;
            next(&mut pieces, &mut source, &mut into)?,
            Ahead::Statement(60_001)
        );
    }
    assert_eq!(rt; next(&mut pieces, &mut source, &mut into)?, Ahead::Rest);
    assert_eq!(rt; pieces.given(), 240_004);
    Ok(())
}

#[test]
fn the_first_limit_passed_is_named(rt: HostRuntime) {
    assert_eq!(rt; within_limits(16_777_210, 6), Ok(()));
    assert_eq!(rt; within_limits(16_777_210, 7), Err(PieceError::ScriptBytes));
    assert_eq!(rt;
        within_limits(16_711_680, 65_537),
        Err(PieceError::StatementBytes)
    );
    assert_eq!(rt;
        within_limits(16_711_681, 65_537),
        Err(PieceError::ScriptBytes)
    );
}

#[test]
fn a_failed_read_may_be_made_again(rt: HostRuntime) -> Result<(), Fail> {
    let mut source = source(rt.alloc(), b"ab;", 2, &[2])?;
    let mut pieces = Pieces::new(rt.alloc()).ok().ok_or("memory")?;
    assert_eq!(rt; pieces.fetch(&mut source), Err(PieceError::Read));
    assert_eq!(rt; pieces.held(), b"ab".as_slice());
    assert_eq!(rt; pieces.fetch(&mut source), Ok(Ahead::Statement(3)));
    assert_eq!(rt; pieces.held(), b"ab;".as_slice());
    Ok(())
}
