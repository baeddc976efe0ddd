ghost use Rattle.std.specs.Prelude.{◌≡◌, ◌≤◌, length};

use crate::operand::Operand;
use pw_base::list::List;
use std::marker::Model;

/// The most keys of an ACCEPT, and the most codes of a SEND.
pub const MAX_LISTED: usize = 9_999;

/// The keys of an ACCEPT, at most 9,999, in their order: 1 to 16 for F1 to F16, and 17 to 32 for SF1
/// to SF16.
#[derive(Debug, Drop)]
pub struct Keys {
    keys: List<u8>,
}

impl Model for Keys {
    ghost use Rattle.std.specs.Prelude.{◌≤◌, List as ListOf, ℕ, length};
    ghost use Rattle.std.specs.Coded.{coded_list, coded_ℕ};

    ghost Value = { ListOf ℕ };

    ghost coded = { coded_list coded_ℕ };

    ghost view = { λ keys. keys.keys };

    ghost invariant = { λ keys. length keys.keys ≤ 9999 };
}

impl Keys {
    /// The keys of an ACCEPT, at most `MAX_LISTED` of them. It takes no memory.
    pub fn new(keys: List<u8>) -> Keys
        requires { length keys ≤ 9999 }
        ensures { result ≡ keys }
    {
        Keys { keys }
    }

    /// The keys in their order. It takes no memory.
    pub fn as_slice(&self) -> &[u8]
        ensures keys { result.now ≡ self.now }
        ensures bound { length result.now ≤ 9999 }
    {
        self.keys.as_slice()
    }
}

/// One code of a SEND, 0 to 9999, and the item to which a reply of this code goes.
#[derive(Debug, Drop)]
pub struct SendCode {
    pub number: u16,
    pub yields: Operand,
}

/// The codes of a SEND, at most 9,999, in their order.
#[derive(Debug, Drop)]
pub struct Codes {
    codes: List<SendCode>,
}

impl Model for Codes {
    ghost use Rattle.std.specs.Prelude.{◌≤◌, List as ListOf, length};
    ghost use Rattle.pw_forms.specs.declared.lists.SendCode.{SendCode};

    ghost Value = { ListOf SendCode };

    ghost view = { λ codes. codes.codes };

    ghost invariant = { λ codes. length codes.codes ≤ 9999 };
}

impl Codes {
    /// The codes of a SEND, at most `MAX_LISTED` of them. It takes no memory.
    pub fn new(codes: List<SendCode>) -> Codes
        requires { length codes ≤ 9999 }
        ensures { result ≡ codes }
    {
        Codes { codes }
    }

    /// The codes in their order. It takes no memory.
    pub fn as_slice(&self) -> &[SendCode]
        ensures codes { result.now ≡ self.now }
        ensures bound { length result.now ≤ 9999 }
    {
        self.codes.as_slice()
    }
}
