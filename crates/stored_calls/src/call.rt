// A stored call: the number of its kind, then what it is told, least byte first.
ghost use Rattle.std.specs.Prelude.{◌+◌, ◌≤◌};
ghost use Rattle.stored_calls.specs.Kinds.{Decodes};

// The kinds of calls (compare/calls/src/call.rs, `NAMES`).
#[derive(Clone, Copy)]
pub enum Kind {
    Open,
    Reset,
    DrawPoint,
    DrawLine,
    DrawBox,
    DrawCircle,
    DrawEllipse,
    CheckPoint,
    PaintBitmap,
    Print,
    Newline,
    Cls,
    Flush,
    GetRow,
    GetColumn,
    SetRow,
    SetColumn,
    SetScreenMode,
    SetPrintMode,
    BlinkCursor,
    ClearCursor,
    WriteByte,
    TakeDirtyArea,
    PaintBitmapByBytes,
}

// No kind that is replayed here has this number.
#[derive(Clone, Copy)]
pub struct NotReplayed(pub u8);

impl TryFrom<u8> for Kind {
    type Error = NotReplayed;

    ghost try_from_gives = { Decodes };

    fn try_from(number: u8) -> Result<Kind, NotReplayed> {
        Ok(match number {
            0 => Kind::Open,
            1 => Kind::Reset,
            2 => Kind::DrawPoint,
            3 => Kind::DrawLine,
            4 => Kind::DrawBox,
            5 => Kind::DrawCircle,
            6 => Kind::DrawEllipse,
            7 => Kind::CheckPoint,
            8 => Kind::PaintBitmap,
            9 => Kind::Print,
            10 => Kind::Newline,
            11 => Kind::Cls,
            12 => Kind::Flush,
            13 => Kind::GetRow,
            14 => Kind::GetColumn,
            15 => Kind::SetRow,
            16 => Kind::SetColumn,
            17 => Kind::SetScreenMode,
            18 => Kind::SetPrintMode,
            19 => Kind::BlinkCursor,
            20 => Kind::ClearCursor,
            21 => Kind::WriteByte,
            22 => Kind::TakeDirtyArea,
            24 => Kind::PaintBitmapByBytes,
            _ => return Err(NotReplayed(number)),
        })
    }
}

pub fn two(stored: &[u8; 16], at: usize) -> u16
    requires { at + 2 ≤ 16 }
{
    u16::from_le_bytes([stored[at], stored[at + 1]])
}

pub fn four(stored: &[u8; 16], at: usize) -> u32
    requires { at + 4 ≤ 16 }
{
    u32::from_le_bytes([stored[at], stored[at + 1], stored[at + 2], stored[at + 3]])
}

pub fn signed(stored: &[u8; 16], at: usize) -> i32
    requires { at + 4 ≤ 16 }
{
    four(stored, at).cast_signed()
}
