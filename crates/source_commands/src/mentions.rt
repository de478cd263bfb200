//! What the statements of a source do with its symbols. This is tested, not proved.

ghost use Rattle.std.specs.List.{AllByRecursion};
ghost use Rattle.pal_text.specs.Order.{IsPlaced};

use pal_acts::{Name, PlacedWord, SourcePlace, SymbolTable};
use pal_text::{Ending, Form, Part, Statement, TextFault, Token, TokenKind, statements};
use std::alloc::{AllocError, Allocator};
use word12::Word;

/// What a statement does with a symbol.
#[derive(Clone, Copy, PartialEq, Eq, Debug)]
pub enum Role {
    /// It gives the symbol its value, as a tag or by an assignment.
    Defines,
    /// It calls the symbol's address with JMS.
    Calls,
    /// It jumps to the symbol's address with JMP.
    JumpsTo,
    /// It uses the symbol's cell as a pointer.
    Points,
    /// It sets the symbol's cell with DCA.
    Sets,
    /// It adds 1 to the symbol's cell with ISZ.
    Counts,
    /// It reads the symbol's cell with AND or TAD.
    Reads,
    /// Its word holds the symbol's value, or is computed from it.
    Holds,
    /// It computes an origin, or the value of another symbol, from the symbol.
    Computes,
}

/// Where a statement is found: by its line, or by the address of its word.
#[derive(Clone, Copy, PartialEq, Eq, Debug)]
pub enum Site {
    /// By its line.
    Line(SourcePlace),
    /// By the address of its word.
    Word(Word),
}

/// A symbol in a statement, and what the statement does with it.
#[derive(Clone, Copy)]
pub struct Mention {
    /// The symbol.
    pub name: Name,
    /// What the statement does with it.
    pub role: Role,
    /// Where the statement is found.
    pub site: Site,
}

/// Where a statement is found: by its line and, if it is a word, by the address of that word.
#[derive(Clone, Copy)]
pub struct StatementSites {
    /// Its line.
    pub line: Site,
    /// Its word.
    pub word: Site,
}

const AND: Name = Name {
    letters: *b"AND   ",
};

const TAD: Name = Name {
    letters: *b"TAD   ",
};

const ISZ: Name = Name {
    letters: *b"ISZ   ",
};

const DCA: Name = Name {
    letters: *b"DCA   ",
};

const JMS: Name = Name {
    letters: *b"JMS   ",
};

const JMP: Name = Name {
    letters: *b"JMP   ",
};

/// The mark of an indirect reference.
const INDIRECT: Name = Name {
    letters: *b"I     ",
};

/// The mark of a reference to page zero.
const ZERO_PAGE: Name = Name {
    letters: *b"Z     ",
};

/// The name of the symbol that a token is.
fn name_of(source: &[u8], token: Token) -> Name {
    Name::new(source.get(token.start..token.end).unwrap_or(b""))
}

/// What an operation that takes an address does with the cell that it names directly.
fn direct_role(name: Name) -> Option<Role> {
    if name == AND || name == TAD {
        Some(Role::Reads)
    } else if name == ISZ {
        Some(Role::Counts)
    } else if name == DCA {
        Some(Role::Sets)
    } else if name == JMS {
        Some(Role::Calls)
    } else if name == JMP {
        Some(Role::JumpsTo)
    } else {
        None
    }
}

/// Whether these tokens begin with a space and this symbol.
fn begins_with(mark: Name, source: &[u8], tokens: &[Token]) -> bool {
    match tokens {
        [space, token, ..] => {
            matches!(space.kind, TokenKind::Space)
                && matches!(token.kind, TokenKind::Symbol)
                && name_of(source, *token) == mark
        }
        _ => false,
    }
}

/// Whether what follows an operation makes the reference indirect: the symbol I, or Z and then I.
fn is_indirect(source: &[u8], rest: &[Token]) -> bool {
    if begins_with(INDIRECT, source, rest) {
        return true;
    }
    let behind = rest.get(2..).unwrap_or(&[]);
    begins_with(ZERO_PAGE, source, rest) && begins_with(INDIRECT, source, behind)
}

/// What a word does with the first of the source's own symbols in it. A word that is not a reference holds what it
/// names.
fn word_role(source: &[u8], tokens: &[Token]) -> Role {
    match tokens {
        [first, rest @ ..] if matches!(first.kind, TokenKind::Symbol) => {
            match direct_role(name_of(source, *first)) {
                Some(_) if is_indirect(source, rest) => Role::Points,
                Some(role) => role,
                None => Role::Holds,
            }
        }
        _ => Role::Holds,
    }
}

/// A part of a source, and the source's own symbols.
#[derive(Clone, Copy)]
struct PartSymbols<'s, S: Allocator + Copy> {
    own: &'s SymbolTable<S>,
    source: &'s [u8],
}

impl<S: Allocator + Copy> PartSymbols<'_, S> {
    /// Adds what a token does, if it is one of the source's own symbols, and returns whether it is one.
    fn push_use<A: Allocator>(
        &self,
        site: &Site,
        role: Role,
        token: Token,
        mentions: &mut Vec<Mention, A>,
    ) -> Result<bool, AllocError> {
        let name = name_of(self.source, token);
        let is_own = matches!(token.kind, TokenKind::Symbol) && self.own.get(&name).is_some();
        if is_own {
            mentions.push(Mention {
                name,
                role,
                site: *site,
            })?;
        }
        Ok(is_own)
    }

    /// Adds what tokens do with the source's own symbols among them: one role for the first of these symbols, and
    /// another for each later one.
    fn push_uses<A: Allocator>(
        &self,
        site: &Site,
        first: Role,
        later: Role,
        tokens: &[Token],
        mentions: &mut Vec<Mention, A>,
    ) -> Result<(), AllocError> {
        let mut role = first;
        for token in tokens {
            let is_own = self.push_use(site, role, *token, mentions)?;
            role = if is_own { later } else { role };
        }
        Ok(())
    }

    /// Adds what a statement does with the source's own symbols. The first `tags` of its tokens are its tags, which it
    /// defines, as an assignment does with its first symbol; an assignment and an origin compute with the others.
    fn push_statement<A: Allocator>(
        &self,
        sites: &StatementSites,
        tags: usize,
        form: Form,
        tokens: &[Token],
        mentions: &mut Vec<Mention, A>,
    ) -> Result<(), AllocError> {
        let (line, defines, computes) = (&sites.line, Role::Defines, Role::Computes);
        let tagged = tokens.get(..tags).unwrap_or(tokens);
        let body = tokens.get(tags..).unwrap_or(&[]);
        self.push_uses(line, defines, defines, tagged, mentions)?;
        match (form, body) {
            (Form::Assign, [symbol, value @ ..]) => {
                let _ = self.push_use(line, defines, *symbol, mentions)?;
                self.push_uses(line, computes, computes, value, mentions)
            }
            (Form::Origin, _) => self.push_uses(line, computes, computes, body, mentions),
            (Form::Word, _) => {
                let role = word_role(self.source, body);
                self.push_uses(&sites.word, role, Role::Holds, body, mentions)
            }
            _ => Ok(()),
        }
    }
}

/// The address of the next word, or 0 if there is none.
fn next_at(words: &[PlacedWord]) -> Word {
    match words {
        [word, ..] => word.at,
        [] => Word::ZERO,
    }
}

/// The words after a statement of this form; the first of the words is its own, if it is a word.
fn words_behind(form: Form, words: &[PlacedWord]) -> &[PlacedWord] {
    match (form, words) {
        (Form::Word, [_, more @ ..]) => more,
        _ => words,
    }
}

/// Adds what a statement does, which is in the part with this number and has its word, if it is one, at this address.
fn push_placed<A: Allocator + Copy, S: Allocator + Copy>(
    own: &SymbolTable<S>,
    number: usize,
    part: &Part<'_, A>,
    statement: Statement,
    at: Word,
    mentions: &mut Vec<Mention, A>,
) -> Result<(), AllocError>
    requires { IsPlaced part.now.tokens.items statement }
{
    let standing = StatementSites {
        line: Site::Line(SourcePlace {
            part: number,
            line: statement.line,
        }),
        word: Site::Word(at),
    };
    // Each tag is followed by a comma.
    let tags = statement.tags.saturating_mul(2);
    let symbols = PartSymbols {
        own,
        source: part.source,
    };
    let tokens = part.tokens_of(statement);
    symbols.push_statement(&standing, tags, statement.form, tokens, mentions)
}

/// Adds what the statements of the part with this number do. `words` are the words of the source from this part on;
/// those after this part are returned.
fn push_statements<'w, A: Allocator + Copy, S: Allocator + Copy>(
    own: &SymbolTable<S>,
    number: usize,
    part: &Part<'_, A>,
    words: &'w [PlacedWord],
    mentions: &mut Vec<Mention, A>,
) -> Result<&'w [PlacedWord], AllocError>
    requires { AllByRecursion (IsPlaced part.now.tokens.items) part.now.statements.items }
{
    let mut left = words;
    for statement in &part.statements {
        push_placed(own, number, part, *statement, next_at(left), mentions)?;
        left = words_behind(statement.form, left);
    }
    Ok(left)
}

/// What the statements of a source do with its own symbols, in order; `words` are its words, in the order of the
/// source.
///
/// # Errors
///
/// `AllocError` if memory was refused.
pub fn mentions_of<A: Allocator + Copy, S: Allocator + Copy>(
    alloc: A,
    own: &SymbolTable<S>,
    parts: &[&[u8]],
    words: &[PlacedWord],
) -> Result<Vec<Mention, A>, AllocError> {
    let mut mentions = Vec::new(alloc);
    let mut left = words;
    for (index, source) in parts.iter().enumerate() {
        match statements(alloc, source) {
            Ok(part) => {
                left = push_statements(own, index.saturating_add(1), &part, left, &mut mentions)?;
                if part.ending == Ending::Dollar {
                    break;
                }
            }
            Err(TextFault::NoMemory) => return Err(AllocError),
            Err(_) => break,
        }
    }
    Ok(mentions)
}
