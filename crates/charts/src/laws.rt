// The theorems on charts.
ghost use Rattle.charts.specs.Claims.{Sound, Complete, Recognized, Decomposed, Unambiguous, Stable, Charted, Turned, Finite, Falling, Endless};

// The items of a chart are those that derive a list, and the readings are the lists of its roots.
pub fn items_stand()
    ensures sound { Sound }
    ensures complete { Complete }
    ensures recognized { Recognized }
{}

// The lists of an item are those that its links give, and a list shows the part of an item that it is of.
pub fn links_stand()
    ensures decomposed { Decomposed }
    ensures unambiguous { Unambiguous }
{}

// Fewer tokens have the items and links that end among them.
pub fn stability_stands()
    ensures { Stable }
{}

// Closed rows are the chart.
pub fn closure_stands()
    ensures { Charted }
{}

// Rows that grow turn by turn become the chart.
pub fn turns_stand()
    ensures { Turned }
{}

// A chart is finite.
pub fn room_stands()
    ensures { Finite }
{}

// The key falls along every link.
pub fn keys_stand()
    ensures { Falling }
{}

// An item that is made from itself has endlessly many lists.
pub fn cycles_stand()
    ensures { Endless }
{}
