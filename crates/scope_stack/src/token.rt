//! A token of a line, with its columns and scopes, and the list of a line's tokens.

ghost use Rattle.std.specs.Prelude.{◌≡◌, [], ◌∷◌, ◌++◌, IfOk, OnOk, OnErr};

use scope_names::Scopes;
use std::alloc::{AllocError, Global};
use std::marker::Model;

/// The characters of a line from column `from` to column `to`, and the scopes that hold there.
#[derive(Drop)]
pub struct Token {
    pub from: u32,
    pub to: u32,
    pub scopes: Scopes,
}

impl Model for Token {
    ghost use Rattle.scope_defs.specs.Frames.{Token as ScopedRun};

    ghost Value = { ScopedRun };

    ghost view = { λ token. record { from = token.from; to = token.to; scopes = token.scopes } };
}

impl Token {
    /// The same token, which shares its scopes.
    pub fn copy(&self) -> Result<Token, AllocError>
        ensures { IfOk result (λ token. token ≡ self.now) }
    {
        Ok(Token {
            from: self.from,
            to: self.to,
            scopes: self.scopes.copy()?,
        })
    }
}

/// The tokens of a line, in order.
#[derive(Drop)]
pub struct TokenRows {
    tokens: Vec<Token>,
}

impl Model for TokenRows {
    ghost use Rattle.std.specs.Prelude.{List};
    ghost use Rattle.scope_defs.specs.Frames.{Token as ScopedRun};

    ghost Value = { List ScopedRun };

    ghost view = { λ rows. rows.tokens.items };
}

impl TokenRows {
    pub fn new(alloc: Global) -> TokenRows
        ensures { result ≡ [] }
    {
        TokenRows {
            tokens: Vec::new(alloc),
        }
    }

    pub fn push(&mut self, token: Token) -> Result<(), AllocError>
        ensures ok { OnOk result (self.new ≡ self.old ++ token ∷ []) }
        ensures err { OnErr result (self.new ≡ self.old) }
    {
        self.tokens.push(token)?;
        Ok(())
    }

    pub fn as_slice(&self) -> &[Token]
        ensures { result.now ≡ self.now }
    {
        self.tokens.as_slice()
    }

    /// The same tokens, which share their scopes.
    pub fn copy(&self) -> Result<TokenRows, AllocError>
        ensures { IfOk result (λ rows. rows ≡ self.now) }
    {
        let mut rows = TokenRows::new(*self.tokens.allocator());
        for token in &self.tokens {
            rows.push(token.copy()?)?;
        }
        Ok(rows)
    }
}
