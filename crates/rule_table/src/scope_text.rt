//! A scope text of a rule, whose names are ready to be pushed where it has no dollar sign.

ghost use Rattle.std.specs.Prelude.{◌≡◌, option_map, IfOk};
ghost use Rattle.scope_defs.specs.Scopes.{pieces};
ghost use Rattle.rule_table.specs.ScopeTexts.{fixed_of};
ghost use Rattle.std.specs.Option.{option_copied};

use scope_names::SharedName;
use std::alloc::{AllocError, Global};
use std::marker::Model;
use text_pos::Name;

/// A scope text of a rule. One without `$` stands for itself, and its names are ready to be pushed.
#[derive(Drop)]
pub struct ScopeText {
    text: Name,
    fixed: Option<SharedName>,
}

impl Model for ScopeText {
    ghost use Rattle.std.specs.Prelude.{◌≡◌, List, ℕ};
    ghost use Rattle.std.specs.Coded.{coded_list, coded_ℕ};
    ghost use Rattle.rule_table.specs.ScopeTexts.{fixed_of};

    ghost Value = { List ℕ };

    ghost coded = { coded_list coded_ℕ };

    ghost view = { λ t. t.text };

    ghost invariant = { λ t. t.fixed ≡ fixed_of t.text };
}

impl ScopeText {
    pub fn of(alloc: Global, text: &str) -> Result<ScopeText, AllocError>
        ensures { IfOk result (λ t. t ≡ text.now) }
    {
        let fixed = if text.as_bytes().contains(&b'$') {
            None
        } else {
            Some(SharedName::of(alloc, text)?)
        };
        Ok(ScopeText {
            text: Name::of(alloc, text)?,
            fixed,
        })
    }

    pub fn text(&self) -> &str
        ensures { result.now ≡ self.now }
    {
        self.text.text()
    }

    /// Its names, exactly where it has no `$`.
    pub fn fixed(&self) -> Option<&SharedName>
        ensures { option_copied result ≡ fixed_of self.now }
    {
        self.fixed.as_ref()
    }
}
