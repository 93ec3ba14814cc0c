//! Why a service has no address.
ghost use Rattle.std.specs.Prelude.{◌≡◌};
ghost use Rattle.kube_model.specs.LineWords.{reason_text};

/// Why a service that is to have addresses gets none.
#[derive(Clone, Copy)]
pub enum Reason {
    /// The addresses asked for can't be read.
    RequestUnreadable,
    /// The addresses asked for aren't exactly one of each family.
    RequestFamilies,
    /// The pool asked for isn't configured.
    PoolUnknown,
    /// The pool asked for doesn't serve the service.
    PoolRefused,
    /// No one pool that serves the service has all the addresses asked for.
    AddressOutside,
    /// An address asked for can't be used.
    AddressUnusable,
    /// The pool asked for has no usable address of some family.
    PoolExhausted,
    /// No pool gives addresses to the service unasked.
    NoPool,
    /// No such pool has a usable address of each family.
    Exhausted,
}

impl Reason {
    /// The word that stands for it in lines.
    pub fn as_str(self) -> &'static str
        ensures { result.now ≡ reason_text self }
    {
        match self {
            Reason::RequestUnreadable => "request-unreadable",
            Reason::RequestFamilies => "request-families",
            Reason::PoolUnknown => "pool-unknown",
            Reason::PoolRefused => "pool-refused",
            Reason::AddressOutside => "address-outside",
            Reason::AddressUnusable => "address-unusable",
            Reason::PoolExhausted => "pool-exhausted",
            Reason::NoPool => "no-pool",
            Reason::Exhausted => "exhausted",
        }
    }
}
