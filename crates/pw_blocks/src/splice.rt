ghost use Rattle.std.specs.Prelude.{◌≡◌, ◌+◌, ◌≤◌, ◌<◌, vec_len, vec_capacity};
ghost use Rattle.pw_blocks.specs.Blocks.{with_blocks};

/// Puts items in place of one. The list has room for them, so that it takes no memory.
pub fn put_in_place<T: Drop>(list: &mut Vec<T>, place: usize, mut items: Vec<T>)
    requires within { place < vec_len list.old }
    requires room { vec_len list.old + vec_len items ≤ vec_capacity list.old }
    ensures { list.new.items ≡ with_blocks list.old.items place items.items }
{
    while items.len() > 1 {
        let item = items.pop().unwrap();
        let _ = list.insert(place + 1, item);
    }
    match items.pop() {
        Some(item) => list[place] = item,
        None => {
            list.remove(place);
        }
    }
}
