ghost use Rattle.std.specs.Prelude.{◌≡◌};
ghost use Rattle.pw_data.specs.Parts.{is_table_word};

use pw_words::texts::{requester_words, server_words};

/// Whether the table of servers, or that of requesters, has a word.
#[tactic(auto, unfolding(crate::specs::Parts::is_table_word))]
pub fn is_table_word(server: bool, word: &[u8]) -> bool
    ensures { result ≡ is_table_word server word.now }
{
    if server {
        server_words().find(word).is_some()
    } else {
        requester_words().find(word).is_some()
    }
}
