// What may cross threads: seats and sessions move, a chain is shared.
use crate::chain::Chain;
use crate::seat::LaneSeat;
use crate::session::Session;

fn sent<T: Send + Drop>(_value: T) {}

fn shared<T: Sync>(_value: &T) {}

fn send_seat(seat: LaneSeat<'_>) {
    sent(seat);
}

fn send_session(session: Session) {
    sent(session);
}

fn share_chain(chain: &Chain) {
    shared(chain);
}
