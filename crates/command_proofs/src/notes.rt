// What an answer does not show by itself, told after it.
use answers::print;

// A sum over zero, whose numerator says nothing about the rows; and counted challenges, which everybody knows beforehand.
pub fn say_notes(over_zero: bool, counted: bool) {
    if over_zero {
        print(
            "note: the denominator of the sum is zero, so that the proof says nothing about the rows\n",
        );
    }
    if counted {
        print("note: the challenges are counted, for demonstrations only\n");
    }
}
