// The padded message, lane by lane: the bytes of a label, then words of four bytes each, the highest first, then the padding.
ghost use Rattle.std.specs.Prelude.{◌≡◌, ◌+◌, ◌*◌, ◌/◌, ◌^◌, ◌<◌, ◌≤◌, get_or, length};
ghost use Rattle.wire.specs.Bytes.{be4, bytes_of};
ghost use Rattle.shake.specs.Sponge.{padded, lane_at, block_at};
ghost use Rattle.shake.specs.Drawn.{message};
ghost use Rattle.shake.specs.Quads.{quad_at};

// A label and the words after it, so short that each place in it is a usize.
#[derive(Clone, Copy)]
pub struct Message<'a> {
    pub label: &'a [u8],
    pub words: &'a [u32],
    pub ghost short: { length label.now < 2 ^ 62 },
}

// Byte j of a word, 0 the highest.
fn word_byte(w: u32, j: usize) -> u64
    requires { j < 4 }
    ensures { (result ≡ get_or (be4 w) j 0) × (result < 256) }
{
    u64::from(w.to_be_bytes()[j])
}

// Four bytes of the words, from byte j on, the first the lowest: of two words side by side, turned.
fn quad_of_words(words: &[u32], j: usize) -> u64
    requires { j + 4 < 4 * length words.now }
    ensures { (result ≡ quad_at (bytes_of words.now) j) × (result < 2 ^ 32) }
{
    let pair = u64::from(words[j / 4]) * 0x1_0000_0000 + u64::from(words[j / 4 + 1]);
    let quad = (pair >> (32 - 8 * (j % 4))) % 0x1_0000_0000;
    u64::from((quad as u32).swap_bytes())
}

// Eight bytes of the words, from byte j on.
fn lane_of_words(words: &[u32], j: usize) -> u64
    requires { j + 8 < 4 * length words.now }
    ensures { result ≡ quad_at (bytes_of words.now) j + quad_at (bytes_of words.now) (j + 4) * 2 ^ 32 }
{
    quad_of_words(words, j) + quad_of_words(words, j + 4) * 0x1_0000_0000
}

impl<'a> Message<'a> {
    // How many bytes it has.
    pub fn size(&self) -> usize
        ensures { result ≡ length self.now.label.now + 4 * length self.now.words.now }
    {
        self.label.len() + 4 * self.words.len()
    }

    // Byte i of the padded message.
    fn byte(&self, i: usize) -> u64
        requires { i < (length self.now.label.now + 4 * length self.now.words.now) / 168 * 168 + 168 }
        ensures { (result ≡ get_or (padded (message self.now.label.now self.now.words.now)) i 0) × (result < 256) }
    {
        let size = self.size();
        let last = size / 168 * 168 + 167;
        if i < self.label.len() {
            u64::from(self.label[i])
        } else if i < size {
            let j = i - self.label.len();
            word_byte(self.words[j / 4], j % 4)
        } else if i == last {
            if i == size { 159 } else { 128 }
        } else if i == size {
            31
        } else {
            0
        }
    }

    // Four bytes of the padded message, one by one.
    fn quad_by_bytes(&self, i: usize) -> u64
        requires { i + 3 < (length self.now.label.now + 4 * length self.now.words.now) / 168 * 168 + 168 }
        ensures { (result ≡ quad_at (padded (message self.now.label.now self.now.words.now)) i) × (result < 2 ^ 32) }
    {
        self.byte(i)
            + self.byte(i + 1) * 0x100
            + self.byte(i + 2) * 0x1_0000
            + self.byte(i + 3) * 0x100_0000
    }

    // Four bytes of the padded message: at once where they all lie in the words or in the padding's zeros.
    fn quad(&self, i: usize) -> u64
        requires { i + 3 < (length self.now.label.now + 4 * length self.now.words.now) / 168 * 168 + 168 }
        ensures { (result ≡ quad_at (padded (message self.now.label.now self.now.words.now)) i) × (result < 2 ^ 32) }
    {
        let size = self.size();
        if i >= self.label.len() && i + 4 < size {
            quad_of_words(self.words, i - self.label.len())
        } else if i > size && i + 3 < size / 168 * 168 + 167 {
            0
        } else {
            self.quad_by_bytes(i)
        }
    }

    // Lane i of the padded message, by its halves.
    fn lane_by_quads(&self, i: usize) -> u64
        requires { i < (length self.now.label.now + 4 * length self.now.words.now) / 168 * 21 + 21 }
        ensures { result ≡ lane_at (padded (message self.now.label.now self.now.words.now)) i }
    {
        self.quad(8 * i) + self.quad(8 * i + 4) * 0x1_0000_0000
    }

    // Lane i of the padded message: at once where it lies in the words or after the byte 1f, as nearly all do.
    fn lane(&self, i: usize) -> u64
        requires { i < (length self.now.label.now + 4 * length self.now.words.now) / 168 * 21 + 21 }
        ensures { result ≡ lane_at (padded (message self.now.label.now self.now.words.now)) i }
    {
        let size = self.size();
        let at = 8 * i;
        // two tests that compile to two branches: with `at + 8 < size` both are asked in each lane, and a block takes longer
        if at >= self.label.len() && at - self.label.len() + 8 < 4 * self.words.len() {
            lane_of_words(self.words, at - self.label.len())
        } else if at <= size {
            self.lane_by_quads(i)
        } else if at + 7 == size / 168 * 168 + 167 {
            0x8000_0000_0000_0000
        } else {
            0
        }
    }

    // The 21 lanes of block k of the padded message.
    pub fn block(&self, k: usize) -> [u64; 21]
        requires { k ≤ (length self.now.label.now + 4 * length self.now.words.now) / 168 }
        ensures { result ≡ block_at (padded (message self.now.label.now self.now.words.now)) k }
    {
        let mut lanes = [0u64; 21];
        for (n, lane) in lanes.iter_mut().enumerate() {
            *lane = self.lane(21 * k + n);
        }
        lanes
    }
}
