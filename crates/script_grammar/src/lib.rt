//! The grammar of scripts: trees, how they are spelled, and the parsers that read them with one token in hand (predictive parsing).
//!
//! A tree is spelled by a printing function, which stands for the grammar's rules. The laws below say what the parser's answers mean
//! in terms of trees: it reads a list of tokens exactly where a tree is spelled so, and else it stops at the first token with which no
//! statement begins, or that opens one group too many.
#![tactic(auto)]

ghost use Rattle.std.specs.Prelude.{◌≡◌, ℕ, List, []};
ghost use Rattle.parser_laws.specs.Parsing.{Syntax, Nesting, done, halt};
ghost use Rattle.parser_laws.specs.Places.{IsRead, IsSyntaxAt, IsNestingAt};
ghost use Rattle.script_tokens.specs.Tokens.{PlacedToken};
ghost use Rattle.script_grammar.specs.Statements.{whole_statement, Statement};

/// What is read is a statement that is spelled by the tokens.
pub fn reads_statements()
    ensures { (ts : List PlacedToken) (a : Statement) (rest : List PlacedToken) → whole_statement.parse ts ≡ done a rest → IsRead whole_statement ts a }
{}

/// Each statement within the nesting is read back from its tokens, so no two are spelled alike.
pub fn reads_back()
    ensures { (a : Statement) → whole_statement.In a → whole_statement.parse (whole_statement.toks a) ≡ done a [] }
{}

/// A syntax error is answered at a place exactly where some statement begins with the tokens before it, and none with that token too.
pub fn finds_syntax_errors()
    ensures answered { (ts : List PlacedToken) (k : ℕ) → whole_statement.parse ts ≡ halt Syntax k → IsSyntaxAt whole_statement ts k }
    ensures found { (ts : List PlacedToken) (k : ℕ) → IsSyntaxAt whole_statement ts k → whole_statement.parse ts ≡ halt Syntax k }
{}

/// Too deep a nesting is answered at a place exactly where the token there opens the first group that is one too many.
pub fn finds_deep_nesting()
    ensures answered { (ts : List PlacedToken) (k : ℕ) → whole_statement.parse ts ≡ halt Nesting k → IsNestingAt whole_statement ts k }
    ensures found { (ts : List PlacedToken) (k : ℕ) → IsNestingAt whole_statement ts k → whole_statement.parse ts ≡ halt Nesting k }
{}
