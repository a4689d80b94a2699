// The theorems on readings.
ghost use Rattle.readings.specs.Claims.{Adequate, Summarized, Spanned, Local, EmptyTrees, Readable, PrefixFree, Nonempty, Ordered};

// Trees with numbers are trees with summaries, and so are readings.
pub fn adequacy_stands()
    ensures trees { Adequate }
    ensures readings { Summarized }
{}

// A tree covers tokens that lie in a row, and depends on no token behind them; the nullable symbols are those with a tree over no token.
pub fn spans_stand()
    ensures spans { Spanned }
    ensures local { Local }
    ensures empty { EmptyTrees }
{}

// A list is read in at most one way: lists of trees are prefix-free, and no reading is empty.
pub fn readability_stands()
    ensures unique { Readable }
    ensures prefixes { PrefixFree }
    ensures nonempty { Nonempty }
{}

// The order of lists is a strict total order.
pub fn order_stands()
    ensures { Ordered }
{}
