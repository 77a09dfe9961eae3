//! Tokens as they are answered, with their scopes and standard types.

ghost use Rattle.std.specs.Prelude.{◌≡◌, [], ◌∷◌, ◌++◌, OnOk, OnErr};

use scope_names::Scopes;
use std::alloc::{AllocError, Global};
use std::marker::Model;

/// A token as it is answered: the columns of its characters, the scopes that hold there, the outermost first, and the
/// number of its standard type: 0 for Other, 1 for Comment, 2 for String, 3 for RegEx. The form is this project's own.
#[derive(Drop)]
pub struct TypedToken {
    pub from: u32,
    pub to: u32,
    pub scopes: Scopes,
    pub kind: u32,
}

impl Model for TypedToken {
    ghost use Rattle.answer_defs.specs.TokenAnswers.{AnsweredToken};

    ghost Value = { AnsweredToken };

    ghost view = { λ token. record { from = token.from; to = token.to; scopes = token.scopes; kind = token.kind } };
}

/// The tokens of a line, in order.
#[derive(Drop)]
pub struct TypedTokens {
    tokens: Vec<TypedToken>,
}

impl Model for TypedTokens {
    ghost use Rattle.std.specs.Prelude.{List};
    ghost use Rattle.answer_defs.specs.TokenAnswers.{AnsweredToken};

    ghost Value = { List AnsweredToken };

    ghost view = { λ tokens. tokens.tokens.items };
}

impl TypedTokens {
    pub fn new(alloc: Global) -> TypedTokens
        ensures { result ≡ [] }
    {
        TypedTokens {
            tokens: Vec::new(alloc),
        }
    }

    pub fn push(&mut self, token: TypedToken) -> Result<(), AllocError>
        ensures ok { OnOk result (self.new ≡ self.old ++ token ∷ []) }
        ensures err { OnErr result (self.new ≡ self.old) }
    {
        self.tokens.push(token)?;
        Ok(())
    }

    pub fn as_slice(&self) -> &[TypedToken]
        ensures { result.now ≡ self.now }
    {
        self.tokens.as_slice()
    }
}
