//! Where a migration takes its changes back: a schema file is read up to there.

ghost use Rattle.std.specs.Prelude.{◌≡◌};
ghost use Rattle.sq_plan.specs.Rollback;

/// Whether bytes begin with a mark, in any letter case.
fn begins_with(bytes: &[u8], mark: &[u8]) -> bool
    ensures { result ≡ Rollback.begins_with bytes.now mark.now }
{
    mark.len() <= bytes.len() && bytes[..mark.len()].eq_ignore_ascii_case(mark)
}

/// Whether bytes begin with the rollback mark of goose, sql-migrate, dbmate or tern.
#[tactic(auto, unfolding(crate::specs::Rollback::begins_with_mark))]
fn begins_with_mark(bytes: &[u8]) -> bool
    ensures { result ≡ Rollback.begins_with_mark bytes.now }
{
    begins_with(bytes, b"-- +goose Down")
        || begins_with(bytes, b"-- +migrate Down")
        || begins_with(bytes, b"-- migrate:down")
        || begins_with(bytes, b"---- create above / drop below ----")
}

/// The bytes of a schema file before its first line that begins with a rollback mark.
pub fn before_rollback(bytes: &[u8]) -> &[u8]
    ensures { result.now ≡ Rollback.before_rollback bytes.now }
{
    let mut line_begins = true;
    for (at, byte) in bytes.iter().enumerate() {
        if line_begins && begins_with_mark(&bytes[at..]) {
            return &bytes[..at];
        }
        line_begins = *byte == b'\n';
    }
    bytes
}
