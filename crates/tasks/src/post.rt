ghost use Rattle.std.specs.Prelude.{◌≡◌, ◌<◌, length};
ghost use Rattle.tasks.specs.Kinds.{word_at};

// The word at a place of the post. By the rules of the post it is 0 where nothing has come yet, and no word that comes is 0.
pub fn word_at(post: &[u64], place: u64) -> u64
    ensures word { result ≡ word_at post.now place }
    ensures there { 0 < result → place < length post.now }
{
    post.get(place as usize).copied().unwrap_or(0)
}
