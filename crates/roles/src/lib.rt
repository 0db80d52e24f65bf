// Who may do what (document 02, request (n)): which role may make which call.
#![tactic(auto)]

ghost use Rattle.std.specs.Prelude.{◌≡◌};
ghost use Rattle.roles.specs.Names.{call_number, role_number, Names, NamesCall};
ghost use Rattle.roles.specs.Roles as table;

// The roles' numbers, which C passes.
pub const PHARMACIST: u32 = 1;

pub const CARER: u32 = 2;

pub const SERVICE: u32 = 3;

// The roles.
#[derive(Clone, Copy, PartialEq, Eq)]
pub enum Role {
    Pharmacist,
    Carer,
    Service,
}

// A number that is no role's.
#[derive(Clone, Copy, PartialEq, Eq)]
pub struct UnknownRole(pub u32);

impl TryFrom<u32> for Role {
    type Error = UnknownRole;

    ghost try_from_gives = { Names };

    fn try_from(number: u32) -> Result<Role, UnknownRole> {
        match number {
            PHARMACIST => Ok(Role::Pharmacist),
            CARER => Ok(Role::Carer),
            SERVICE => Ok(Role::Service),
            _ => Err(UnknownRole(number)),
        }
    }
}

// The calls that take a role. A reserve is plain or placed, and a call that is lent a summary has the name of the call
// without it.
#[derive(Clone, Copy, PartialEq, Eq)]
pub enum Call {
    Fresh = 1,
    Search = 2,
    Survey = 3,
    Reserve = 4,
    Offer = 5,
    Accept = 6,
    Grow = 7,
    Put = 8,
    Complete = 9,
    Pause = 10,
    Resume = 11,
    Release = 12,
    Show = 13,
    ShowDated = 14,
    Standing = 15,
    Save = 16,
    Load = 17,
    Close = 18,
    BuildSummary = 19,
    CheckSummary = 20,
}

impl Role {
    // Whether the role may make a call.
    #[tactic(auto, unfolding(crate::specs::Roles::may))]
    fn may(self, call: Call) -> bool
        ensures { result ≡ table.may (role_number self) (call_number call) }
    {
        match self {
            Role::Pharmacist => true,
            // Carers read.
            Role::Carer => matches!(call, Call::ShowDated | Call::Standing | Call::Survey),
            // Service looks after the card.
            Role::Service => matches!(
                call,
                Call::Fresh | Call::Save | Call::Load | Call::Close | Call::Standing | Call::Survey
            ),
        }
    }
}

// A number that is no call's.
#[derive(Clone, Copy, PartialEq, Eq)]
pub struct UnknownCall(pub u32);

impl TryFrom<u32> for Call {
    type Error = UnknownCall;

    ghost try_from_gives = { NamesCall };

    fn try_from(number: u32) -> Result<Call, UnknownCall> {
        match number {
            1 => Ok(Call::Fresh),
            2 => Ok(Call::Search),
            3 => Ok(Call::Survey),
            4 => Ok(Call::Reserve),
            5 => Ok(Call::Offer),
            6 => Ok(Call::Accept),
            7 => Ok(Call::Grow),
            8 => Ok(Call::Put),
            9 => Ok(Call::Complete),
            10 => Ok(Call::Pause),
            11 => Ok(Call::Resume),
            12 => Ok(Call::Release),
            13 => Ok(Call::Show),
            14 => Ok(Call::ShowDated),
            15 => Ok(Call::Standing),
            16 => Ok(Call::Save),
            17 => Ok(Call::Load),
            18 => Ok(Call::Close),
            19 => Ok(Call::BuildSummary),
            20 => Ok(Call::CheckSummary),
            _ => Err(UnknownCall(number)),
        }
    }
}

// Whether a role may make a call; each may be any number. No call that has no name is in the row of carers or of service.
#[tactic(auto, unfolding(crate::specs::Roles::may, crate::specs::Roles::carer_may, crate::specs::Roles::service_may))]
pub fn may(role: u32, call: u32) -> bool
    ensures { result ≡ table.may role call }
{
    match (Role::try_from(role), Call::try_from(call)) {
        (Ok(role), Ok(call)) => role.may(call),
        (Ok(Role::Pharmacist), Err(_)) => true,
        _ => false,
    }
}

// Whether a call is turned away by role: row 21 of every call. Each may be any number.
pub fn turned_away(role: u32, call: u32) -> bool
    ensures { result ≡ table.turned_away role call }
{
    !may(role, call)
}

impl Call {
    // Its number, by which the table of roles has it.
    pub fn number(self) -> u32
        ensures { result ≡ call_number self }
    {
        self as u32
    }

    // Whether the call is turned away by role, which may be any number.
    pub fn turned_away(self, role: u32) -> bool
        ensures { result ≡ table.turned_away role (call_number self) }
    {
        turned_away(role, self.number())
    }
}
