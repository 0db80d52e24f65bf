// Words of the scratch, copied from a map.
ghost use Rattle.std.specs.Prelude.{◌≡◌, ◌+◌, ◌≤◌, length};
ghost use Rattle.image_soundness.specs.Windows.{words_from};

// Copies the words of a map from word a on; 0 past its end.
pub fn copy_from(to: &mut [u64], map: &[u64], a: usize)
    requires { a + length to.old ≤ 18446744073709551615 }
    ensures { to.new ≡ words_from map.now a (length to.old) }
{
    for (i, word) in to.iter_mut().enumerate() {
        let at = a + i;
        *word = if at < map.len() { map[at] } else { 0 };
    }
}
