//! How the program is called: the line for words that are not in the grammar, and the text of `--help`.

/// The line of words that are not in the grammar.
pub(crate) const USAGE: &[u8] =
    b"usage: dixlab show IMAGE [PLACE [--bad]], diff IMAGE PLACE IMAGE PLACE, export IMAGE PLACE LAYOUT, import IMAGE PLACE LAYOUT, vectors IMAGE, explain [IMAGE], sweep BYTE T:BLOCKS.., check [FLAG VALUE].., failures T, --help, --version\n";

/// The text of `--help`.
pub(crate) const HELP: &[u8] =
    b"usage: dixlab show IMAGE [PLACE [--bad]]\n       dixlab diff IMAGE PLACE IMAGE PLACE\n       dixlab export IMAGE PLACE LAYOUT > DUMP\n       dixlab import IMAGE PLACE LAYOUT < DUMP\n       dixlab vectors IMAGE < SCRIPT or VECTORS\n       dixlab explain [IMAGE] < SCRIPT\n       dixlab sweep BYTE T:BLOCKS[:SIZE:FIRST].. < SCRIPT\n       dixlab check [FLAG VALUE].. < DUMP\n       dixlab failures T\nPLACE is DEV or DEV:FIRST:COUNT. LAYOUT is interleaved, plain or tuples.\nFLAG is --type 1, --first 0, --size 512, --meta 8, --at 0, --guard 16, --storage BITS, --ref TAG, --app HHHH or --mask ffff.\nStatus: 0 good, 1 something found, 2 words, 3 input at fault, 4 image at fault,\n5 image failed, 6 no memory, 7 input failed, 8 output failed.\n";
