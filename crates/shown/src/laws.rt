// The laws of what is answered, each on the contract of a function: the crate is not proved without its proof. What each
// says stands in specs/Law.antt; the functions themselves do nothing.
ghost use Rattle.shown.specs.Law.{NoneSharper, OrderShowsSame, ReadingOnlySharpens};

// Two observers that took the same readings in another order between two steps show the same.
pub fn order_shows_same_stands()
    ensures { OrderShowsSame }
{}

// After a further reading no span is wider, and nothing that was sure is taken back.
pub fn reading_only_sharpens_stands()
    ensures { ReadingOnlySharpens }
{}

// No ends that hold in every history are sharper than those shown.
pub fn none_sharper_stands()
    ensures { NoneSharper }
{}
