ghost use Rattle.std.specs.Prelude.{◌≡◌, ◌∷◌, [], flat_map, map, is_some};
ghost use Rattle.pw_operands.specs.Scope.{file_of};
ghost use Rattle.pw_operands.specs.Uses.{result_uses, arithmetic_uses, comparison_uses, cond_uses};
ghost use Rattle.pw_operands.specs.Uses as place;
ghost use Rattle.pw_names.specs.Flaws.{passes, variable_at, has_length, file_flaws, flaws, flaws_of};
ghost use Rattle.pw_names.specs.Order.{noted};
ghost use Rattle.pw_names.specs.Wants.{length_test_of};

use crate::known::noted_unless;
use crate::scope::NameScope;
use crate::wanted::{Extent, Wanted};
use pw_base::bytes::Bytes;
use pw_base::fault::Fault;
use pw_base::fault_code::FaultCode;
use pw_base::list::List;
use pw_code::file::FileInfo;
use pw_forms::cond::{ComparisonForm, ConditionForm};
use pw_forms::lists::SendCode;
use pw_forms::operand::Operand;
use pw_forms::statement::ArithmeticForm;
use pw_operands::variable::Variable;

/// Whether an item or register, if there is one, has a length that the file takes.
fn has_length(extent: Extent, file: &FileInfo, variable: &Option<Variable>) -> bool
    ensures { result ≡ passes (length_test_of extent file.now) variable.now }
{
    match variable {
        Some(variable) => extent.takes(file, variable),
        None => true,
    }
}

impl<'a> NameScope<'a> {
    /// The item or register that an operand names.
    pub fn variable_at(&self, operand: &Operand) -> Option<Variable>
        ensures { result ≡ variable_at self.now.scope operand.now }
    {
        match operand {
            Operand::Item { name, .. } => self.variable(name.as_slice()),
            Operand::Number(_) | Operand::Text(_) | Operand::Spaces | Operand::Zeros => None,
        }
    }

    /// Whether there is a file of the name.
    fn has_file(&self, name: &[u8]) -> bool
        ensures { result ≡ is_some (file_of self.now.scope name.now) }
    {
        self.file(name).is_some()
    }

    /// Whether an operand, if it is an item or register, has a length that the file takes, if there
    /// is one.
    fn has_length(&self, extent: Extent, name: &[u8], operand: &Operand) -> bool
        ensures { result ≡ has_length (length_test_of extent) (file_of self.now.scope name.now)
            (variable_at self.now.scope operand.now) }
    {
        match self.file(name) {
            Some(file) => has_length(extent, file, &self.variable_at(operand)),
            None => true,
        }
    }

    /// A key or a record of a file.
    pub fn of_file(
        &self,
        line: u32,
        extent: Extent,
        name: &Bytes,
        operand: &Operand,
        known: Option<Fault>,
    ) -> Option<Fault>
        ensures { result ≡ noted known line
            (file_flaws self.now.scope (length_test_of extent) name.now operand.now) }
    {
        let has_file = self.has_file(name.as_slice());
        let known = noted_unless(known, has_file, line, FaultCode::UnknownName);
        let has_length = self.has_length(extent, name.as_slice(), operand);
        let known = noted_unless(known, has_length, line, FaultCode::WrongLength);
        self.item(line, Wanted::Any, operand, known)
    }

    /// The name of a paragraph.
    pub fn paragraph(&self, line: u32, name: &Bytes, known: Option<Fault>) -> Option<Fault>
        ensures { result ≡ noted known line (flaws self.now.scope (place.Paragraph name.now)) }
    {
        let has_paragraph = self.has_paragraph(name.as_slice());
        noted_unless(known, has_paragraph, line, FaultCode::UnknownParagraph)
    }

    /// The name of a screen.
    pub fn screen(&self, line: u32, name: &Bytes, known: Option<Fault>) -> Option<Fault>
        ensures { result ≡ noted known line (flaws self.now.scope (place.Screen name.now)) }
    {
        let has_screen = self.has_screen(name.as_slice());
        noted_unless(known, has_screen, line, FaultCode::UnknownName)
    }

    /// The name of a class.
    pub fn class(&self, line: u32, name: &Bytes, known: Option<Fault>) -> Option<Fault>
        ensures { result ≡ noted known line (flaws self.now.scope (place.Class name.now)) }
    {
        let has_class = self.has_class(name.as_slice());
        noted_unless(known, has_class, line, FaultCode::UnknownName)
    }

    /// Items that receive.
    pub fn receivers(&self, line: u32, operands: &[Operand], known: Option<Fault>) -> Option<Fault>
        ensures { result ≡ noted known line
            (flaws_of self.now.scope (map place.Receiver operands.now)) }
    {
        let mut found = known;
        for operand in operands {
            found = self.item(line, Wanted::Item, operand, found);
        }
        found
    }

    /// The items that receive by the codes of a SEND.
    pub fn yields(&self, line: u32, codes: &[SendCode], known: Option<Fault>) -> Option<Fault>
        ensures { result ≡ noted known line
            (flaws_of self.now.scope (map (λ code. place.Receiver code.yields) codes.now)) }
    {
        let mut found = known;
        for code in codes {
            found = self.item(line, Wanted::Item, &code.yields, found);
        }
        found
    }

    /// The names of paragraphs.
    pub fn paragraph_names(&self, line: u32, names: &[Bytes], known: Option<Fault>) -> Option<Fault>
        ensures { result ≡ noted known line
            (flaws_of self.now.scope (map place.Paragraph names.now)) }
    {
        let mut found = known;
        for name in names {
            found = self.paragraph(line, name, found);
        }
        found
    }

    /// The second operand of arithmetic, and the item of GIVING.
    fn result(
        &self,
        line: u32,
        second: &Operand,
        giving: &Option<Operand>,
        known: Option<Fault>,
    ) -> Option<Fault>
        ensures { result ≡ noted known line
            (flaws_of self.now.scope (result_uses second.now giving.now)) }
    {
        match giving {
            Some(item) => {
                let known = self.amount(line, second, known);
                self.item(line, Wanted::Sum, item, known)
            }
            None => self.item(line, Wanted::Sum, second, known),
        }
    }

    /// Arithmetic.
    pub fn arithmetic(
        &self,
        line: u32,
        arithmetic: &ArithmeticForm,
        known: Option<Fault>,
    ) -> Option<Fault>
        ensures { result ≡ noted known line
            (flaws_of self.now.scope (arithmetic_uses arithmetic.now)) }
    {
        let known = self.amount(line, &arithmetic.first, known);
        self.result(line, &arithmetic.second, &arithmetic.giving, known)
    }

    /// A comparison.
    fn comparison(
        &self,
        line: u32,
        comparison: &ComparisonForm,
        known: Option<Fault>,
    ) -> Option<Fault>
        ensures { result ≡ noted known line
            (flaws_of self.now.scope (comparison_uses comparison.now)) }
    {
        match comparison {
            ComparisonForm::Compare { left, right, .. } => {
                let known = self.any(line, left, known);
                self.any(line, right, known)
            }
            ComparisonForm::Numeric { operand, .. } => self.any(line, operand, known),
        }
    }

    /// Comparisons of which each must hold.
    fn comparisons(&self, line: u32, all: &[ComparisonForm], known: Option<Fault>) -> Option<Fault>
        ensures { result ≡ noted known line
            (flaws_of self.now.scope (flat_map comparison_uses all.now)) }
    {
        let mut found = known;
        for comparison in all {
            found = self.comparison(line, comparison, found);
        }
        found
    }

    /// Lists of comparisons of which one must hold.
    fn alternatives(
        &self,
        line: u32,
        any: &[List<ComparisonForm>],
        known: Option<Fault>,
    ) -> Option<Fault>
        ensures { result ≡ noted known line
            (flaws_of self.now.scope (flat_map (λ all. flat_map comparison_uses all) any.now)) }
    {
        let mut found = known;
        for all in any {
            found = self.comparisons(line, all.as_slice(), found);
        }
        found
    }

    /// A condition.
    pub fn cond(&self, line: u32, cond: &ConditionForm, known: Option<Fault>) -> Option<Fault>
        ensures { result ≡ noted known line (flaws_of self.now.scope (cond_uses cond.now)) }
    {
        self.alternatives(line, cond.any.as_slice(), known)
    }
}
