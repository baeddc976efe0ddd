ghost use Rattle.std.specs.Prelude.{◌≡◌, ◌∷◌, [], is_some};
ghost use Rattle.pw_operands.specs.Variables.{is_index};
ghost use Rattle.pw_operands.specs.Scope.{variable_in, screen_of};
ghost use Rattle.pw_operands.specs.Resolved.{is_whole};
ghost use Rattle.pw_names.specs.Flaws.{knows_subscript, passes, is_subscript, has_subscript, is_of_kind, named_flaws, item_flaws, any_flaws, amount_flaws, screen_name_flaws, shown_name_flaws, shown_flaws};
ghost use Rattle.pw_names.specs.Order.{noted};
ghost use Rattle.pw_names.specs.Wants.{test_of};

use crate::known::noted_unless;
use crate::scope::NameScope;
use crate::wanted::{Wanted, is_index};
use pw_base::bytes::Bytes;
use pw_base::fault::Fault;
use pw_base::fault_code::FaultCode;
use pw_forms::operand::{Operand, Subscript};
use pw_operands::variable::Variable;

/// Whether a number has no point.
fn is_whole(digits: &[u8]) -> bool
    ensures { result ≡ is_whole digits.now }
{
    digits.iter().all(|byte| *byte != b'.')
}

/// What is wrong with an operand that may not stand where it does.
fn wrong_kind(known: Option<Fault>, line: u32) -> Option<Fault>
    ensures { result ≡ noted known line (FaultCode.WrongKind ∷ []) }
{
    noted_unless(known, false, line, FaultCode::WrongKind)
}

impl<'a> NameScope<'a> {
    /// Whether the name that a subscript is stands for an item or register.
    fn knows_subscript(&self, subscript: &Option<Subscript>) -> bool
        ensures { result ≡ knows_subscript self.now.scope subscript.now }
    {
        match subscript {
            Some(Subscript::Item(name)) => self.variable(name.as_slice()).is_some(),
            Some(Subscript::Number(_)) | None => true,
        }
    }

    /// Whether an item or register may be a subscript, if there is one of the name.
    fn is_index(&self, name: &[u8]) -> bool
        ensures { result ≡ passes is_index (variable_in self.now.scope name.now) }
    {
        match self.variable(name) {
            Some(variable) => is_index(&variable),
            None => true,
        }
    }

    /// Whether a subscript is a whole number, or an item or register that may be one.
    fn is_subscript(&self, subscript: &Subscript) -> bool
        ensures { result ≡ is_subscript self.now.scope subscript.now }
    {
        match subscript {
            Subscript::Number(digits) => is_whole(digits.as_slice()),
            Subscript::Item(name) => self.is_index(name.as_slice()),
        }
    }

    /// Whether an item or register has the subscript that it wants.
    fn has_subscript(&self, subscript: &Option<Subscript>, variable: &Variable) -> bool
        ensures { result ≡ has_subscript self.now.scope subscript.now variable.now }
    {
        match subscript {
            Some(subscript) => variable.occurs != 0 && self.is_subscript(subscript),
            None => variable.occurs == 0,
        }
    }

    /// Whether an item or register, if there is one, is what is wanted, with the subscript that it
    /// wants.
    fn is_of_kind(
        &self,
        wanted: Wanted,
        subscript: &Option<Subscript>,
        variable: &Option<Variable>,
    ) -> bool
        ensures { result ≡ passes (is_of_kind self.now.scope (test_of wanted) subscript.now)
            variable.now }
    {
        match variable {
            Some(variable) => wanted.takes(variable) && self.has_subscript(subscript, variable),
            None => true,
        }
    }

    /// A name with its subscript, where an item or register is wanted.
    fn named(
        &self,
        line: u32,
        wanted: Wanted,
        name: &Bytes,
        subscript: &Option<Subscript>,
        known: Option<Fault>,
    ) -> Option<Fault>
        ensures { result ≡ noted known line
            (named_flaws self.now.scope (test_of wanted) name.now subscript.now) }
    {
        let variable = self.variable(name.as_slice());
        let is_known = variable.is_some() && self.knows_subscript(subscript);
        let known = noted_unless(known, is_known, line, FaultCode::UnknownItem);
        let is_of_kind = self.is_of_kind(wanted, subscript, &variable);
        noted_unless(known, is_of_kind, line, FaultCode::WrongKind)
    }

    /// The name of a screen with a subscript, which it does not want.
    fn screen_name(
        &self,
        line: u32,
        subscript: &Option<Subscript>,
        known: Option<Fault>,
    ) -> Option<Fault>
        ensures { result ≡ noted known line (screen_name_flaws self.now.scope subscript.now) }
    {
        let is_known = self.knows_subscript(subscript);
        let known = noted_unless(known, is_known, line, FaultCode::UnknownItem);
        noted_unless(known, subscript.is_none(), line, FaultCode::WrongKind)
    }

    /// An operand where an item or register is wanted.
    pub fn item(
        &self,
        line: u32,
        wanted: Wanted,
        operand: &Operand,
        known: Option<Fault>,
    ) -> Option<Fault>
        ensures { result ≡ noted known line
            (item_flaws self.now.scope (test_of wanted) operand.now) }
    {
        match operand {
            Operand::Item { name, subscript } => self.named(line, wanted, name, subscript, known),
            Operand::Number(_) | Operand::Text(_) | Operand::Spaces | Operand::Zeros => {
                wrong_kind(known, line)
            }
        }
    }

    /// An operand where each may stand.
    pub fn any(&self, line: u32, operand: &Operand, known: Option<Fault>) -> Option<Fault>
        ensures { result ≡ noted known line (any_flaws self.now.scope operand.now) }
    {
        match operand {
            Operand::Item { name, subscript } => self.named(
                line,
                Wanted::Any,
                name,
                subscript,
                known,
            ),
            Operand::Number(_) | Operand::Text(_) | Operand::Spaces | Operand::Zeros => known,
        }
    }

    /// An operand where a number is wanted.
    pub fn amount(&self, line: u32, operand: &Operand, known: Option<Fault>) -> Option<Fault>
        ensures { result ≡ noted known line (amount_flaws self.now.scope operand.now) }
    {
        match operand {
            Operand::Item { name, subscript } => {
                self.named(line, Wanted::Number, name, subscript, known)
            }
            Operand::Number(_) => known,
            Operand::Text(_) | Operand::Spaces | Operand::Zeros => wrong_kind(known, line),
        }
    }

    /// The operand of DISPLAY.
    pub fn shown(&self, line: u32, operand: &Operand, known: Option<Fault>) -> Option<Fault>
        ensures { result ≡ noted known line (shown_flaws self.now.scope operand.now) }
    {
        match operand {
            Operand::Item { name, subscript } => self.shown_name(line, name, subscript, known),
            Operand::Number(_) | Operand::Text(_) | Operand::Spaces | Operand::Zeros => known,
        }
    }

    /// The name of a screen, or of an item or register.
    fn shown_name(
        &self,
        line: u32,
        name: &Bytes,
        subscript: &Option<Subscript>,
        known: Option<Fault>,
    ) -> Option<Fault>
        ensures { result ≡ noted known line
            (shown_name_flaws self.now.scope name.now subscript.now
            (is_some (screen_of self.now.scope name.now))) }
    {
        if self.has_screen(name.as_slice()) {
            self.screen_name(line, subscript, known)
        } else {
            self.named(line, Wanted::Any, name, subscript, known)
        }
    }
}
