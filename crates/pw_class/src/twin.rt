ghost use Rattle.std.specs.Prelude.{◌≡◌, IfOk};

use crate::request::Request;
use pw_base::memory::Memory;
use std::marker::Model;

/// A request twice, so that one may be handed out and the other kept without taking memory then.
#[derive(Debug, Drop)]
pub struct Twin {
    kept: Request,
    given: Request,
}

impl Model for Twin {
    ghost use Rattle.std.specs.Prelude.{◌≡◌};
    ghost use Rattle.pw_class.specs.declared.request.Request.{Request as SeenRequest};

    ghost Value = { SeenRequest };

    ghost view = { λ twin. twin.kept };

    ghost invariant = { λ twin. twin.given ≡ twin.kept };
}

impl Twin {
    /// Both of a request.
    pub fn new(request: Request) -> Result<Twin, Memory>
        ensures { IfOk result (λ twin. twin ≡ request) }
    {
        let given = Request {
            terminal: request.terminal,
            unit: request.unit,
            message: request.message.copy(request.message.allocator())?,
        };
        Ok(Twin {
            kept: request,
            given,
        })
    }

    /// The request.
    pub fn request(&self) -> &Request
        ensures { result.now ≡ self.now }
    {
        &self.kept
    }

    /// The two.
    pub fn into_parts(self) -> (Request, Request)
        ensures kept { result.0 ≡ self }
        ensures given { result.1 ≡ self }
    {
        let Twin { kept, given } = self;
        (kept, given)
    }
}
