ghost use Rattle.std.specs.Prelude.{◌≡◌, ◌∷◌, ◌++◌, map};
ghost use Rattle.pw_operands.specs.Uses as place;
ghost use Rattle.pw_names.specs.Flaws.{passes, unless_holds, flaws_of};
ghost use Rattle.pw_names.specs.Calls.{is_long, arguments_fit, numbered_fit, call_fits};
ghost use Rattle.pw_names.specs.Order.{noted};

use crate::known::noted_unless;
use crate::scope::NameScope;
use pw_base::bytes::Bytes;
use pw_base::fault::Fault;
use pw_base::fault_code::FaultCode;
use pw_forms::operand::Operand;
use pw_operands::variable::Variable;

/// Whether an item or register, if there is one, has the length of a USING item.
fn is_long(length: Option<u32>, variable: &Option<Variable>) -> bool
    ensures { result ≡ passes (is_long length) variable.now }
{
    match variable {
        Some(variable) => length == Some(variable.size),
        None => true,
    }
}

impl<'a> NameScope<'a> {
    /// Whether there are as many arguments as USING items, and each that is an item or register is
    /// as long as its USING item.
    fn arguments_fit(&self, arguments: &[Operand], lengths: &[Option<u32>]) -> bool
        ensures { result ≡ arguments_fit self.now.scope arguments.now lengths.now }
    {
        let mut rest = arguments;
        let mut others = lengths;
        while let Some((argument, behind)) = rest.split_first() {
            let Some((length, other_lengths)) = others.split_first() else {
                return false;
            };
            if !is_long(*length, &self.variable_at(argument)) {
                return false;
            }
            rest = behind;
            others = other_lengths;
        }
        others.is_empty()
    }

    /// Whether arguments fit the USING items of the program of a number, if there is one.
    fn numbered_fit(&self, arguments: &[Operand], number: Option<usize>) -> bool
        ensures { result ≡ numbered_fit self.now arguments.now number }
    {
        match number {
            Some(number) => match self.lengths(number) {
                Some(lengths) => self.arguments_fit(arguments, lengths.as_slice()),
                None => false,
            },
            None => true,
        }
    }

    /// A CALL.
    pub fn call(
        &self,
        line: u32,
        name: &Bytes,
        arguments: &[Operand],
        known: Option<Fault>,
    ) -> Option<Fault>
        ensures { result ≡ noted known line
            (flaws_of self.now.scope (place.Program name.now ∷ map place.Receiver arguments.now)
            ++ unless_holds (call_fits self.now name.now arguments.now) FaultCode.WrongLength) }
    {
        let number = self.program(name.as_slice());
        let known = noted_unless(known, number.is_some(), line, FaultCode::UnknownName);
        let known = self.receivers(line, arguments, known);
        let fits = self.numbered_fit(arguments, number);
        noted_unless(known, fits, line, FaultCode::WrongLength)
    }
}
