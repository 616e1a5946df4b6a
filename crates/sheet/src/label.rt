// Labels that can be written: with no "=" in them, and no two settings with the same.
ghost use Rattle.std.specs.Prelude.{◌≡◌, not, ◌+◌, ◌<◌, ◌^◌};
ghost use Rattle.protocol.specs.Bytes.{every};
ghost use Rattle.protocol.specs.Text.{same_text};
ghost use Rattle.protocol.specs.Sheet.{settings_of, is_plain, writable};
ghost use Rattle.tree.specs.Seen.{seen};
ghost use Rattle.sheet.specs.Steps.{label_at, settings_from};

use super::setting::Settings;
use text::read;
use tree::part;

// Whether a label has no "=".
fn is_plain(label: &[u8]) -> bool
    ensures { result ≡ is_plain label.now }
{
    !label.contains(&b'=')
}

// Whether a text is the label of the property at a place. Most labels differ before they end, so that their length is looked for
// only where the text stands there.
fn is_label(tree: &[u8], s: &[u8], k: usize) -> bool
    ensures { result ≡ same_text s.now (label_at (seen tree.now) k) }
{
    let start = part::label_start(tree, k);
    if !read::begins(s, &tree[start..]) {
        return false;
    }
    let label = part::label(tree, k);
    s.len() == label.end - label.start
}

// Whether no setting behind a place has a text for its label.
fn differs_behind(tree: &[u8], s: &[u8], k: usize) -> bool
    requires { k + 1 < 2 ^ 64 }
    ensures { result ≡ every (λ j. not (same_text s.now (label_at (seen tree.now) j))) (settings_from (seen tree.now) (k + 1)) }
{
    let behind = Settings { tree, from: k + 1 };
    for j in behind {
        if is_label(tree, s, j) {
            return false;
        }
    }
    true
}

// Whether the labels of all settings can be written.
pub(crate) fn are_writable(tree: &[u8]) -> bool
    ensures { result ≡ writable (seen tree.now) (settings_of (seen tree.now)) }
{
    let settings = Settings { tree, from: 0 };
    for k in settings {
        let label = &tree[part::label(tree, k)];
        if !is_plain(label) {
            return false;
        }
        if !differs_behind(tree, label, k) {
            return false;
        }
    }
    true
}
