ghost use Rattle.std.specs.Prelude.{◌≡◌, ◌<◌, None, Some, is_none, map, position, slice_index_or, slice_set, vec_len};
ghost use Rattle.std.specs.List.{list_any};
ghost use Rattle.pw_class.specs.Queue.{works_for, busy_without};

use crate::request::Request;

/// Whether this is work for the terminal.
pub fn works_for(work: &Option<Request>, terminal: u32) -> bool
    ensures { result ≡ works_for terminal work.now }
{
    match work {
        Some(request) => request.terminal == terminal,
        None => false,
    }
}

/// Whether some of the work is for the terminal.
pub fn any_for(busy: &[Option<Request>], terminal: u32) -> bool
    ensures { result ≡ list_any (works_for terminal) busy.now }
{
    busy.iter().any(|work| works_for(work, terminal))
}

/// The first place whose work is for the terminal.
pub fn place_for(busy: &[Option<Request>], terminal: u32) -> Option<usize>
    ensures { result ≡ position (works_for terminal) busy.now }
{
    busy.iter().position(|work| works_for(work, terminal))
}

/// The first place without work.
pub fn free_place(busy: &[Option<Request>]) -> Option<usize>
    ensures { result ≡ position is_none busy.now }
{
    busy.iter().position(|work| work.is_none())
}

/// Ends the work if it is for the terminal.
fn end_for(work: &mut Option<Request>, terminal: u32)
    ensures { work.new ≡ busy_without terminal work.old }
{
    if works_for(work, terminal) {
        *work = None;
    }
}

/// Ends all work for the terminal.
pub fn end_all_for(busy: &mut Vec<Option<Request>>, terminal: u32)
    ensures { busy.new.items ≡ map (busy_without terminal) busy.old.items }
{
    for work in busy.iter_mut() {
        end_for(work, terminal);
    }
}

/// Takes the work of a place.
pub fn take_at(busy: &mut Vec<Option<Request>>, place: usize) -> Option<Request>
    requires { place < vec_len busy.old }
    ensures answer { result ≡ slice_index_or busy.old.items place None }
    ensures after { busy.new.items ≡ slice_set busy.old.items place None }
{
    busy[place].take()
}

/// Puts work in a place.
pub fn put_at(busy: &mut Vec<Option<Request>>, place: usize, request: Request)
    requires { place < vec_len busy.old }
    ensures { busy.new.items ≡ slice_set busy.old.items place (Some request) }
{
    busy[place] = Some(request);
}
