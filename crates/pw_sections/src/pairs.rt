ghost use Rattle.std.specs.Prelude.{◌≡◌, ◌≤◌, [], Some, length, IfOk};
ghost use Rattle.pw_code.specs.Limits.{most_pairs};
ghost use Rattle.pw_sections.specs.Entries.{with_pair};

use pw_base::bytes::Bytes;
use pw_base::list::List;
use pw_base::memory::Memory;
use pw_code::entry::MAX_PAIRS;
use pw_words::names::Names;
use std::alloc::Global;
use std::marker::Model;

/// The pairs of an entry line, at most `MAX_PAIRS`. Contracts see them in their order. Whether a name
/// stands already is found by its hash.
#[derive(Drop)]
pub struct Pairs {
    fields: List<(Bytes, Bytes)>,
    names: Names,
}

impl Model for Pairs {
    ghost use Rattle.std.specs.Prelude.{List};
    ghost use Rattle.pw_sections.specs.Entries.{NameValue};
    ghost use Rattle.pw_sections.specs.Pairs.{AreNamesOfPairs};

    ghost Value = { List NameValue };

    ghost view = { λ pairs. pairs.fields };

    ghost invariant = { λ pairs. AreNamesOfPairs pairs.fields pairs.names };
}

impl Pairs {
    /// No pairs. It takes no memory.
    pub fn new(alloc: Global) -> Pairs
        ensures { result ≡ [] }
    {
        Pairs {
            fields: List::new(alloc),
            names: Names::new(alloc),
        }
    }

    /// The pairs with one more behind them; None exactly where it may not stand there.
    pub fn with(self, alloc: Global, pair: (Bytes, Bytes)) -> Result<Option<Pairs>, Memory>
        ensures { IfOk result (λ pairs. pairs ≡ with_pair self (Some pair)) }
    {
        let Pairs {
            mut fields,
            mut names,
        } = self;
        if fields.len() >= MAX_PAIRS {
            return Ok(None);
        }
        let name = Vec::from_slice(alloc, pair.0.as_slice())?;
        if names.put(name)? {
            return Ok(None);
        }
        fields.push(pair)?;
        Ok(Some(Pairs { fields, names }))
    }

    /// The list of the pairs. It takes no memory.
    pub fn into_list(self) -> List<(Bytes, Bytes)>
        ensures pairs { result ≡ self }
        ensures few { length result ≤ most_pairs }
    {
        let Pairs { fields, names: _ } = self;
        fields
    }
}
