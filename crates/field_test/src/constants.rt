// The constants are the words of the elements that they are named for: each check is proved, and run.
use field::{Base, Ext, Field};

fn of_base() {
    check::expect(Base::ZERO.is_zero());
    check::expect(Base::ONE.equals(Base::from(1)));
    check::expect(Base::TWO.equals(Base::ONE.double()));
    check::expect((Base::HALF * Base::from(2)).equals(Base::ONE));
    check::expect((Base::SIXTH * Base::from(6)).equals(Base::ONE));
}

fn of_extension() {
    check::expect(Ext::ZERO == Ext::from(0));
    check::expect(Ext::ONE == Ext::from(1));
    check::expect(Ext::TWO == Ext::ONE.double());
    check::expect(Ext::HALF == Ext::from(Base::HALF));
    check::expect(Ext::SIXTH == Ext::from(Base::SIXTH));
}

// All checks of the constants.
pub fn hold() {
    of_base();
    of_extension();
}
