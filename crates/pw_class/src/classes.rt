ghost use Rattle.std.specs.Prelude.{◌≡◌, ◌<◌, ◌^◌, length, map, position, slice_set};
ghost use Rattle.pw_class.specs.Places.{IsRequestPlace};
ghost use Rattle.pw_class.specs.Book.{queue_at};
ghost use Rattle.pw_class.specs.Queue.{after_take, has_request, taken, without};

use crate::queue::Queue;
use crate::request::{RequestPlace, Taken};

/// The first class that has a request of the terminal.
fn class_with(classes: &[Queue], terminal: u32) -> Option<usize>
    ensures { result ≡ position (has_request terminal) classes.now }
{
    classes.iter().position(|queue| queue.has_request(terminal))
}

/// Where the first class that has a request of the terminal has it, None exactly where no class has one.
pub fn place_of(classes: &[Queue], terminal: u32) -> Option<RequestPlace>
    requires { length classes.now < 2 ^ 32 }
    ensures { IsRequestPlace classes.now terminal result }
{
    match class_with(classes, terminal) {
        Some(class) => classes[class].place_of(class as u32, terminal),
        None => None,
    }
}

/// Gives the first waiting request of a class to its free process of smallest number.
pub fn take_next(classes: &mut Vec<Queue>, class: u32) -> Taken
    ensures answer { result ≡ taken (queue_at classes.old.items class) }
    ensures after { classes.new.items ≡ slice_set classes.old.items class (after_take (queue_at classes.old.items class)) }
{
    match classes.get_mut(class as usize) {
        Some(queue) => queue.take(),
        None => Taken::Empty,
    }
}

/// Takes away the requests of a terminal in every class.
pub fn cancel_all(classes: &mut Vec<Queue>, terminal: u32)
    ensures { classes.new.items ≡ map (without terminal) classes.old.items }
{
    for queue in classes.iter_mut() {
        queue.cancel(terminal);
    }
}
