//! Laws of the numbers of an image and of the contents of a block: each is what a call with no effect
//! ensures.

ghost use Rattle.zj_block.specs.Block.{IsContent, zero_content};
ghost use Rattle.zj_block.specs.Laws.{BytesMakeContent, BytesOfWords, ContentHasBytes, NumberFits, NumberFound, NumbersApart, NumbersElsewhere, NumbersOffWord, OverwrittenBytes, PutBytes, PutContent, SetWordBytes, WithinLimits, WordHalves, WordsElsewhere, WordsOfBytes, ZeroBytes, ZeroNumbers, ZeroWords};

/// Numbers are within their limits exactly where none is out of range.
pub fn limits()
    ensures { WithinLimits }
{}

/// Words and bytes tell each other.
pub fn words_and_bytes()
    ensures words { WordsOfBytes }
    ensures bytes { BytesOfWords }
    ensures content_has_bytes { ContentHasBytes }
    ensures bytes_make_content { BytesMakeContent }
{}

/// Which byte stands where after some were overwritten.
pub fn overwritten_bytes()
    ensures { OverwrittenBytes }
{}

/// A word that is set changes its own eight bytes alone.
pub fn set_word_bytes()
    ensures { SetWordBytes }
{}

/// A content with new bytes over some is a content, and has those bytes.
pub fn put_bytes()
    ensures bytes { PutBytes }
    ensures content { PutContent }
{}

/// A number of 32 bits that was put is found at its place, and what lies apart from it stays.
pub fn put_number()
    ensures fits { NumberFits }
    ensures found { NumberFound }
    ensures apart { NumbersApart }
    ensures elsewhere { NumbersElsewhere }
    ensures words { WordsElsewhere }
{}

/// A word is made of two numbers of 32 bits, and setting it leaves the others.
pub fn word_halves()
    ensures halves { WordHalves }
    ensures others { NumbersOffWord }
{}

/// A block of zeros has no word, byte or number but 0.
pub fn zeros()
    ensures content { IsContent zero_content }
    ensures words { ZeroWords }
    ensures bytes { ZeroBytes }
    ensures numbers { ZeroNumbers }
{}
