//! The options of a solicitation.
ghost use Rattle.std.specs.Prelude.{◌≡◌, ◌==◌, if◌then◌else◌, length, Some, None};
ghost use Rattle.std.specs.Option.{option_map};
ghost use Rattle.neigh_frames.specs.Options.{options_of, sender_in, with_option};

/// What the options of a message say of its sender.
#[derive(Clone, Copy)]
pub(crate) struct Sender {
    /// Whether some option states a link-layer address.
    pub stated: bool,
    /// The first Ethernet address that is stated.
    pub hardware: Option<[u8; 6]>,
}

/// What the options say, or `None` where they aren't whole: one has the length 0, or the last
/// doesn't end where the bytes end.
pub(crate) fn sender_of(bytes: &[u8]) -> Option<Sender>
    ensures { result ≡ option_map sender_in (options_of bytes.now) }
{
    let mut sender = Sender {
        stated: false,
        hardware: None,
    };
    let mut rest = bytes;
    while let [kind, units, body @ ..] = rest {
        let size = *units as usize * 8;
        if size == 0 || body.len() < size - 2 {
            return None;
        }
        sender = with_option(sender, *kind, &body[..size - 2]);
        rest = &body[size - 2..];
    }
    if !rest.is_empty() {
        return None;
    }
    Some(sender)
}

/// What was said, and then one option more.
fn with_option(sender: Sender, kind: u8, body: &[u8]) -> Sender
    ensures { result ≡ with_option sender kind body.now }
{
    if kind != 1 {
        return sender;
    }
    Sender {
        stated: true,
        hardware: sender.hardware.or(six(body)),
    }
}

/// The bytes, where they are six.
fn six(bytes: &[u8]) -> Option<[u8; 6]>
    ensures { result ≡ (if length bytes.now == 6 then Some bytes.now else None) }
{
    if bytes.len() != 6 {
        return None;
    }
    let mut six = [0; 6];
    six.copy_from_slice(bytes);
    Some(six)
}
