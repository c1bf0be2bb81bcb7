// The refusals, in document 01's words and with its numbers. 0 means done.

#[derive(Clone, Copy, PartialEq, Eq, Debug)]
pub enum Refusal {
    // A lent record, memory, panel, image or set of registers has the wrong length, or the extra list is no multiple of 6.
    Lent = 1,
    // A record field breaks the record's table, the bases break WINDOW, or the controller's registers are damaged.
    State = 2,
    // Open: a base too high, or windows that share a byte.
    Window = 3,
    // A row, column, mode, version, fill or edge flag that is not listed.
    Value = 4,
    // A bitmap of nonzero size whose source runs past memory.
    Source = 5,
    // An ellipse radius above 127.
    Radius = 6,
    // Flush would paint a byte past the end of its font.
    Glyph = 7,
    // Send: a panel's number above the last.
    Panel = 9,
    // The glass controller: a register above 7, a write that the device does not take, or a driver call while it is busy.
    Register = 10,
}
